//! Eight values of 32 bytes, one in each lane, by their words: a vector has the same word of each.

ghost use Rattle.std.specs.Prelude.{◌≡◌, ℕ, [], ◌<◌, ◌≤◌, ◌+◌, length, slice_index, slice_index_or};
ghost use Rattle.sha2.specs.Sha256 as specs;
ghost use Rattle.hash_lanes.specs.Lanes.{words};
ghost use Rattle.hash_lanes.specs.Texts.{value_at};

use std::simd::u32x8;

/// The values with these bytes.
pub fn from_bytes(bytes: &[[u8; 32]; 8]) -> [u32x8; 8]
    ensures { (j : ℕ) → j < 8 → value_at result j ≡ slice_index_or bytes.now j [] }
{
    let rows = [
        words_of(&bytes[0]),
        words_of(&bytes[1]),
        words_of(&bytes[2]),
        words_of(&bytes[3]),
        words_of(&bytes[4]),
        words_of(&bytes[5]),
        words_of(&bytes[6]),
        words_of(&bytes[7]),
    ];
    [
        column(&rows, 0),
        column(&rows, 1),
        column(&rows, 2),
        column(&rows, 3),
        column(&rows, 4),
        column(&rows, 5),
        column(&rows, 6),
        column(&rows, 7),
    ]
}

/// The bytes of the values.
pub fn to_bytes(values: [u32x8; 8]) -> [[u8; 32]; 8]
    ensures { (j : ℕ) → j < 8 → slice_index_or result j [] ≡ value_at values j }
{
    let columns = [
        values[0].to_array(),
        values[1].to_array(),
        values[2].to_array(),
        values[3].to_array(),
        values[4].to_array(),
        values[5].to_array(),
        values[6].to_array(),
        values[7].to_array(),
    ];
    [
        bytes_of(&columns, 0),
        bytes_of(&columns, 1),
        bytes_of(&columns, 2),
        bytes_of(&columns, 3),
        bytes_of(&columns, 4),
        bytes_of(&columns, 5),
        bytes_of(&columns, 6),
        bytes_of(&columns, 7),
    ]
}

/// In each lane the first value where `at` is below `end`, and else the second.
#[inline(always)]
pub(crate) fn choose(at: u32x8, end: u32x8, first: [u32x8; 8], second: [u32x8; 8]) -> [u32x8; 8]
    ensures below { (j : ℕ) → j < 8 → slice_index at j < slice_index end j
        → value_at result j ≡ value_at first j }
    ensures others { (j : ℕ) → j < 8 → slice_index end j ≤ slice_index at j
        → value_at result j ≡ value_at second j }
{
    [
        choose_word(at, end, first[0], second[0]),
        choose_word(at, end, first[1], second[1]),
        choose_word(at, end, first[2], second[2]),
        choose_word(at, end, first[3], second[3]),
        choose_word(at, end, first[4], second[4]),
        choose_word(at, end, first[5], second[5]),
        choose_word(at, end, first[6], second[6]),
        choose_word(at, end, first[7], second[7]),
    ]
}

/// The word at byte `i`.
pub(crate) fn load_be(bytes: &[u8], i: usize) -> u32
    requires { i + 4 ≤ length bytes.now }
    ensures { result ≡ specs.word_at bytes.now i }
{
    u32::from_be_bytes([bytes[i], bytes[i + 1], bytes[i + 2], bytes[i + 3]])
}

/// The words of a value.
fn words_of(bytes: &[u8; 32]) -> [u32; 8]
    ensures { specs.digest_bytes result 8 ≡ bytes.now }
{
    [
        load_be(bytes, 0),
        load_be(bytes, 4),
        load_be(bytes, 8),
        load_be(bytes, 12),
        load_be(bytes, 16),
        load_be(bytes, 20),
        load_be(bytes, 24),
        load_be(bytes, 28),
    ]
}

/// A word of each value.
fn column(rows: &[[u32; 8]; 8], k: usize) -> u32x8
    requires { k < 8 }
    ensures { (j : ℕ) → j < 8 →
        slice_index result j ≡ slice_index (slice_index_or rows.now j []) k }
{
    u32x8::from_array([
        rows[0][k], rows[1][k], rows[2][k], rows[3][k], rows[4][k], rows[5][k], rows[6][k],
        rows[7][k],
    ])
}

/// The bytes of a value.
fn bytes_of(columns: &[[u32; 8]; 8], j: usize) -> [u8; 32]
    requires { j < 8 }
    ensures { result ≡ specs.digest_bytes (words j columns.now) 8 }
{
    let mut bytes = [0; 32];
    'words: for i in 0..8 {
        bytes[4 * i..4 * i + 4].copy_from_slice(&columns[i][j].to_be_bytes());
    }
    bytes
}

/// In each lane the first word where `at` is below `end`, and else the second.
#[inline(always)]
fn choose_word(at: u32x8, end: u32x8, first: u32x8, second: u32x8) -> u32x8
    ensures below { (j : ℕ) → j < 8 → slice_index at j < slice_index end j
        → slice_index result j ≡ slice_index first j }
    ensures others { (j : ℕ) → j < 8 → slice_index end j ≤ slice_index at j
        → slice_index result j ≡ slice_index second j }
{
    at.simd_lt(end).select(first, second)
}
