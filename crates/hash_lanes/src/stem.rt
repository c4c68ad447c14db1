//! Texts that begin with the same bytes.

ghost use Rattle.std.specs.Prelude.{◌≡◌, ℕ, List, ◌+◌, ◌*◌, ◌/◌, ◌%◌, ◌<◌, ◌≤◌, ◌^◌, slice_index};
ghost use Rattle.sha2.specs.Sha256 as specs;
ghost use Rattle.hash_lanes.specs.Lanes.{lane, lane_at};
ghost use Rattle.hash_lanes.specs.Texts.{IsStem, text_of, value_at};

use crate::compression::{finish, five_rounds, spread};
use crate::constants::INITIAL_HASH;
use crate::values::{choose, load_be};
use crate::word::{add, shift_left, shift_right};
use std::simd::u32x8;

/// 20 bytes with which texts begin, by their words, and the state after the rounds with these,
/// which the hashes of all such texts share.
#[derive(Clone, Copy, Drop)]
pub struct Stem {
    words: [u32; 5],
    state: [u32; 8],
}

impl Stem {
    pub fn new(bytes: &[u8; 20]) -> Stem
        ensures { IsStem result bytes.now }
    {
        let words = [
            load_be(bytes, 0),
            load_be(bytes, 4),
            load_be(bytes, 8),
            load_be(bytes, 12),
            load_be(bytes, 16),
        ];
        let state = five_rounds(spread(&INITIAL_HASH), &words);
        Stem {
            words,
            state: first_lane(state),
        }
    }

    /// In each lane the words of the stem, of the mark's three bytes and of the value, and of the
    /// padding of these 55 bytes.
    #[inline(always)]
    fn block(&self, marks: u32x8, v: [u32x8; 8]) -> [u32x8; 16]
        ensures { (stem : List ℕ) (i byte j k : ℕ) → j < 8 → k < 16 → IsStem self.now stem
            → i < 2 ^ 16 → byte < 2 ^ 8 → slice_index marks j ≡ 256 * i + byte
            → lane_at result k j
            ≡ specs.word_at (specs.padded_message (text_of stem i byte (value_at v j))) (4 * k) }
    {
        [
            u32x8::splat(self.words[0]),
            u32x8::splat(self.words[1]),
            u32x8::splat(self.words[2]),
            u32x8::splat(self.words[3]),
            u32x8::splat(self.words[4]),
            join_bytes(marks, v[0]),
            join_bytes(v[0], v[1]),
            join_bytes(v[1], v[2]),
            join_bytes(v[2], v[3]),
            join_bytes(v[3], v[4]),
            join_bytes(v[4], v[5]),
            join_bytes(v[5], v[6]),
            join_bytes(v[6], v[7]),
            join_bytes(v[7], u32x8::splat(0x8000_0000)),
            u32x8::splat(0),
            u32x8::splat(440),
        ]
    }

    /// In each lane the hash of the stem with the mark's three bytes and the value.
    pub fn hash_eight(&self, marks: u32x8, values: [u32x8; 8]) -> [u32x8; 8]
        ensures { (stem : List ℕ) (i byte j : ℕ) → j < 8 → IsStem self.now stem
            → i < 2 ^ 16 → byte < 2 ^ 8 → slice_index marks j ≡ 256 * i + byte
            → value_at result j ≡ specs.sha256 (text_of stem i byte (value_at values j)) }
    {
        let words = self.block(marks, values);
        finish(spread(&INITIAL_HASH), spread(&self.state), words)
    }

    /// The hash in the lanes whose mark is below `end`. In the others the value stays.
    pub fn hash_below(&self, marks: u32x8, end: u32x8, values: [u32x8; 8]) -> [u32x8; 8]
        ensures below { (stem : List ℕ) (i byte j : ℕ) → j < 8
            → slice_index marks j < slice_index end j → IsStem self.now stem
            → i < 2 ^ 16 → byte < 2 ^ 8 → slice_index marks j ≡ 256 * i + byte
            → value_at result j ≡ specs.sha256 (text_of stem i byte (value_at values j)) }
        ensures others { (j : ℕ) → j < 8 → slice_index end j ≤ slice_index marks j
            → value_at result j ≡ value_at values j }
    {
        choose(marks, end, self.hash_eight(marks, values), values)
    }
}

/// A word of each of the eight vectors: that of the first lane.
fn first_lane(state: [u32x8; 8]) -> [u32; 8]
    ensures { result ≡ lane 0 state }
{
    [
        state[0].to_array()[0],
        state[1].to_array()[0],
        state[2].to_array()[0],
        state[3].to_array()[0],
        state[4].to_array()[0],
        state[5].to_array()[0],
        state[6].to_array()[0],
        state[7].to_array()[0],
    ]
}

/// The last three bytes of a word, and the first of the next behind them.
#[inline(always)]
fn join_bytes(word: u32x8, next: u32x8) -> u32x8
    ensures joined { (j : ℕ) → j < 8 → slice_index result j
        ≡ slice_index word j * 2 ^ 8 % 2 ^ 32 + slice_index next j / 2 ^ 24 }
    ensures fits { (j : ℕ) → j < 8 → slice_index next j < 2 ^ 32 }
{
    add(shift_left(word, 8), shift_right(next, 24))
}
