//! The examples are those of FIPS 180-4 for SHA-256, padded by hand.

ghost use Rattle.std.specs.Prelude.{◌<◌};

use super::*;
use crate::compression::{finish, five_rounds, spread};
use crate::constants::INITIAL_HASH;
use sha2::{Digest, Sha256};
use std::simd::u32x8;

/// The block of "abc".
const ONE_BLOCK: [u32; 16] = [0x6162_6380, 0, 0, 0, 0, 0, 0, 0, 0, 0, 0, 0, 0, 0, 0, 24];

const ONE_BLOCK_DIGEST: [u8; 32] = [
    0xba, 0x78, 0x16, 0xbf, 0x8f, 0x01, 0xcf, 0xea, 0x41, 0x41, 0x40, 0xde, 0x5d, 0xae, 0x22, 0x23,
    0xb0, 0x03, 0x61, 0xa3, 0x96, 0x17, 0x7a, 0x9c, 0xb4, 0x10, 0xff, 0x61, 0xf2, 0x00, 0x15, 0xad,
];

/// The blocks of "abcdbcdecdefdefgefghfghighijhijkijkljklmklmnlmnomnopnopq".
const TWO_BLOCKS: [[u32; 16]; 2] = [
    [
        0x6162_6364,
        0x6263_6465,
        0x6364_6566,
        0x6465_6667,
        0x6566_6768,
        0x6667_6869,
        0x6768_696a,
        0x6869_6a6b,
        0x696a_6b6c,
        0x6a6b_6c6d,
        0x6b6c_6d6e,
        0x6c6d_6e6f,
        0x6d6e_6f70,
        0x6e6f_7071,
        0x8000_0000,
        0,
    ],
    [0, 0, 0, 0, 0, 0, 0, 0, 0, 0, 0, 0, 0, 0, 0, 448],
];

const TWO_BLOCKS_DIGEST: [u8; 32] = [
    0x24, 0x8d, 0x6a, 0x61, 0xd2, 0x06, 0x38, 0xb8, 0xe5, 0xc0, 0x26, 0x93, 0x0c, 0x3e, 0x60, 0x39,
    0xa3, 0x3c, 0xe4, 0x59, 0x64, 0xff, 0x21, 0x67, 0xf6, 0xec, 0xed, 0xd4, 0x19, 0xdb, 0x06, 0xc1,
];

/// The states after a block in one lane, where the others have other words from the sixth on.
fn compress_in(lane: usize, state: [u32x8; 8], block: &[u32; 16]) -> [u32x8; 8]
    requires { lane < 8 }
{
    let mut words = [u32x8::splat(0); 16];
    for k in 0..16 {
        let mut row = [block[k]; 8];
        if k >= 5 {
            row = [0x5a5a_5a5a; 8];
            row[lane] = block[k];
        }
        words[k] = u32x8::from_array(row);
    }
    let first = [block[0], block[1], block[2], block[3], block[4]];
    finish(state, five_rounds(state, &first), words)
}

/// The next of the numbers of a linear congruential generator.
fn next(state: u64) -> u64 {
    state
        .wrapping_mul(6364136223846793005)
        .wrapping_add(1442695040888963407)
}

/// The bytes of a text: a stem, the three low bytes of a mark, and a value.
fn text_of(stem: &[u8; 20], mark: u32, value: &[u8; 32]) -> [u8; 55] {
    let mark = mark.to_be_bytes();
    let mut text = [0; 55];
    for place in 0..55 {
        text[place] = if place < 20 {
            stem[place]
        } else if place < 23 {
            mark[place - 19]
        } else {
            value[place - 23]
        };
    }
    text
}

#[test]
fn the_example_of_one_block_in_each_lane(rt: HostRuntime) {
    for lane in 0..8 {
        let state = compress_in(lane, spread(&INITIAL_HASH), &ONE_BLOCK);
        assert_eq!(rt; to_bytes(state)[lane], ONE_BLOCK_DIGEST);
    }
}

#[test]
fn the_example_of_two_blocks_in_each_lane(rt: HostRuntime) {
    for lane in 0..8 {
        let state = compress_in(lane, spread(&INITIAL_HASH), &TWO_BLOCKS[0]);
        let state = compress_in(lane, state, &TWO_BLOCKS[1]);
        assert_eq!(rt; to_bytes(state)[lane], TWO_BLOCKS_DIGEST);
    }
}

#[test]
fn a_thousand_texts_hash_as_one_at_a_time(rt: HostRuntime) {
    let mut state: u64 = 1;
    for _ in 0..125 {
        let mut stem = [0; 20];
        for place in 0..20 {
            state = next(state);
            stem[place] = (state >> 56) as u8;
        }
        let mut marks = [0; 8];
        let mut values = [[0; 32]; 8];
        for lane in 0..8 {
            state = next(state);
            marks[lane] = (state >> 40) as u32;
            for place in 0..32 {
                state = next(state);
                values[lane][place] = (state >> 56) as u8;
            }
        }
        let hashes = Stem::new(&stem).hash_eight(u32x8::from_array(marks), from_bytes(&values));
        let hashes = to_bytes(hashes);
        for lane in 0..8 {
            let text = text_of(&stem, marks[lane], &values[lane]);
            assert_eq!(rt; hashes[lane], Sha256::digest(&text[..]));
        }
    }
}

#[test]
fn equal_lanes_hash_alike(rt: HostRuntime) {
    let stem = Stem::new(&[7; 20]);
    let hashes = to_bytes(stem.hash_eight(u32x8::splat(9), from_bytes(&[[0x5a; 32]; 8])));
    let plain = Sha256::digest(&text_of(&[7; 20], 9, &[0x5a; 32])[..]);
    for lane in 0..8 {
        assert_eq!(rt; hashes[lane], plain);
    }
}

#[test]
fn a_bit_changes_its_lane_alone(rt: HostRuntime) {
    let stem = Stem::new(&[7; 20]);
    let plain = Sha256::digest(&text_of(&[7; 20], 9, &[0x5a; 32])[..]);
    for changed in 0..8 {
        let mut values = [[0x5a; 32]; 8];
        values[changed][4 * changed] ^= 1;
        let hashes = to_bytes(stem.hash_eight(u32x8::splat(9), from_bytes(&values)));
        for lane in 0..8 {
            assert_eq!(rt; hashes[lane] == plain, lane != changed);
        }
        let text = text_of(&[7; 20], 9, &values[changed]);
        assert_eq!(rt; hashes[changed], Sha256::digest(&text[..]));
    }
}

#[test]
fn a_value_stays_where_its_mark_is_at_the_end(rt: HostRuntime) {
    let values = [[0x5a; 32]; 8];
    let marks = u32x8::from_array([9, 10, 11, 12, 9, 10, 11, 12]);
    let hashes = Stem::new(&[7; 20]).hash_below(marks, u32x8::splat(11), from_bytes(&values));
    let hashes = to_bytes(hashes);
    assert_eq!(rt;
        hashes[0],
        Sha256::digest(&text_of(&[7; 20], 9, &[0x5a; 32])[..])
    );
    assert_eq!(rt;
        hashes[5],
        Sha256::digest(&text_of(&[7; 20], 10, &[0x5a; 32])[..])
    );
    assert_eq!(rt; hashes[2], [0x5a; 32]);
    assert_eq!(rt; hashes[7], [0x5a; 32]);
}
