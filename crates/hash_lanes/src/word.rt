//! The operations of SHA-256 on words, in each of eight lanes.

ghost use Rattle.std.specs.Prelude.{◌≡◌, ℕ, ◌<◌, ◌+◌, ◌*◌, ◌/◌, ◌%◌, ◌^◌, bit_xor, slice_index};
ghost use Rattle.std.specs.Int.{w32, rotate_right};
ghost use Rattle.sha2.specs.Sha256 as specs;

use std::simd::u32x8;

#[inline(always)]
pub(crate) fn add(x: u32x8, y: u32x8) -> u32x8
    ensures { (j : ℕ) → j < 8 →
        slice_index result j ≡ specs.add32 (slice_index x j) (slice_index y j) }
{
    x + y
}

#[inline(always)]
pub(crate) fn xor(x: u32x8, y: u32x8) -> u32x8
    ensures { (j : ℕ) → j < 8 →
        slice_index result j ≡ bit_xor (slice_index x j) (slice_index y j) }
{
    x ^ y
}

#[inline(always)]
pub(crate) fn shift_right(x: u32x8, k: u32) -> u32x8
    requires { k < 32 }
    ensures { (j : ℕ) → j < 8 → slice_index result j ≡ slice_index x j / 2 ^ k }
{
    x >> u32x8::splat(k)
}

#[inline(always)]
pub(crate) fn shift_left(x: u32x8, k: u32) -> u32x8
    requires { k < 32 }
    ensures { (j : ℕ) → j < 8 → slice_index result j ≡ slice_index x j * 2 ^ k % 2 ^ 32 }
{
    x << u32x8::splat(k)
}

/// Each lane turned right by `k` bits.
#[inline(always)]
pub(crate) fn rotate(x: u32x8, k: u32) -> u32x8
    requires low { 0 < k }
    requires high { k < 32 }
    ensures rotated { (j : ℕ) → j < 8 →
        slice_index result j ≡ rotate_right w32 (slice_index x j) k }
    ensures word { (j : ℕ) → j < 8 → slice_index x j < 2 ^ 32 }
{
    (x >> u32x8::splat(k)) | (x << u32x8::splat(32 - k))
}

#[inline(always)]
pub(crate) fn ch(x: u32x8, y: u32x8, z: u32x8) -> u32x8
    ensures { (j : ℕ) → j < 8 →
        slice_index result j ≡ specs.ch (slice_index x j) (slice_index y j) (slice_index z j) }
{
    z ^ (x & (y ^ z))
}

#[inline(always)]
pub(crate) fn maj(x: u32x8, y: u32x8, z: u32x8) -> u32x8
    ensures { (j : ℕ) → j < 8 →
        slice_index result j ≡ specs.maj (slice_index x j) (slice_index y j) (slice_index z j) }
{
    y ^ ((x ^ y) & (y ^ z))
}

// Rotations nested in one another take fewer operations than one beside the other: no processor
// below x86-64-v4 turns the words of a vector by one operation.

#[inline(always)]
pub(crate) fn big_sigma0(x: u32x8) -> u32x8
    ensures { (j : ℕ) → j < 8 → slice_index result j ≡ specs.big_sigma0 (slice_index x j) }
{
    rotate(xor(x, rotate(xor(x, rotate(x, 9)), 11)), 2)
}

#[inline(always)]
pub(crate) fn big_sigma1(x: u32x8) -> u32x8
    ensures { (j : ℕ) → j < 8 → slice_index result j ≡ specs.big_sigma1 (slice_index x j) }
{
    rotate(xor(x, rotate(xor(x, rotate(x, 14)), 5)), 6)
}

#[inline(always)]
pub(crate) fn small_sigma0(x: u32x8) -> u32x8
    ensures { (j : ℕ) → j < 8 →
        slice_index result j ≡ specs.small_sigma0 (slice_index x j) }
{
    xor(rotate(xor(x, rotate(x, 11)), 7), shift_right(x, 3))
}

#[inline(always)]
pub(crate) fn small_sigma1(x: u32x8) -> u32x8
    ensures { (j : ℕ) → j < 8 →
        slice_index result j ≡ specs.small_sigma1 (slice_index x j) }
{
    xor(rotate(xor(x, rotate(x, 2)), 17), shift_right(x, 10))
}
