//! Coefficients of four bits, and the checksum (RFC 8554, sections 3.1.3 and 4.4).

ghost use Rattle.std.specs.Prelude.{◌≡◌, ℕ, ◌≤◌, ◌<◌, ◌*◌, length, slice_index};
ghost use Rattle.ots_core.specs.Coefficients as specs;

use crate::part::write_part;

/// The coefficient with that number, at most 15.
fn coefficient(text: &[u8], i: usize) -> u8
    requires { i < 2 * length text.now }
    ensures value { result ≡ specs.coefficient_of text.now i }
    ensures four_bits { result ≤ 15 }
{
    let byte = text[i / 2];
    if i % 2 == 0 { byte >> 4 } else { byte & 15 }
}

/// The coefficients of all chains.
pub(crate) fn coefficients(text: &[u8; 34]) -> [u16; 67]
    ensures value { (i : ℕ) → i < 67 →
        slice_index result i ≡ specs.coefficient_of text.now i }
    ensures four_bits { (i : ℕ) → i < 67 → slice_index result i ≤ 15 }
{
    let mut counts = [0; 67];
    for i in 0..67 {
        counts[i] = u16::from(coefficient(text, i));
    }
    counts
}

/// The checksum of a digest.
fn checksum(digest: &[u8; 32]) -> u16
    ensures { result ≡ specs.checksum_of digest.now }
{
    let mut sum: u16 = 0;
    for i in 0..64 {
        sum += u16::from(15 - coefficient(digest, i));
    }
    sum << 4
}

/// A digest with its checksum behind it.
pub(crate) fn with_checksum(digest: &[u8; 32]) -> [u8; 34]
    ensures { result ≡ specs.with_checksum digest.now }
{
    let mut text = [0; 34];
    write_part(&mut text, 0, digest);
    write_part(&mut text, 32, &checksum(digest).to_be_bytes());
    text
}
