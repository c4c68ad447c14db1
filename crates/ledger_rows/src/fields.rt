//! The fields of a row's value, at places that are known.

ghost use Rattle.std.specs.Prelude.{◌≡◌, ◌+◌, ◌≤◌, length, take, drop, slice_index};
ghost use Rattle.std.specs.Int.{w32, w64};
ghost use Rattle.act_text.specs.StatementTexts.{settled_byte};
ghost use Rattle.ledger_rows.specs.RowValues.{number_from, id_from, settled_in};

use dh_base::{Id, Outcome};

/// The bytes at a place.
fn array_at<const N: usize>(bytes: &[u8], at: usize) -> [u8; N]
    requires { at + N ≤ length bytes.now }
    ensures { result ≡ take N (drop at bytes.now) }
{
    let mut part = [0; N];
    part.copy_from_slice(&bytes[at..at + N]);
    part
}

/// The number of eight bytes at a place.
pub(crate) fn u64_at(bytes: &[u8], at: usize) -> u64
    requires { at + 8 ≤ length bytes.now }
    ensures { result ≡ number_from w64 at bytes.now }
{
    u64::from_be_bytes(array_at(bytes, at))
}

/// The number of four bytes at a place.
pub(crate) fn u32_at(bytes: &[u8], at: usize) -> u32
    requires { at + 4 ≤ length bytes.now }
    ensures { result ≡ number_from w32 at bytes.now }
{
    u32::from_be_bytes(array_at(bytes, at))
}

/// The id at a place.
pub(crate) fn id_at(bytes: &[u8], at: usize) -> Id
    requires { at + 32 ≤ length bytes.now }
    ensures { result ≡ id_from at bytes.now }
{
    Id(array_at(bytes, at))
}

/// How a deal has ended, by its byte.
pub(crate) fn settled_in(byte: u8) -> Option<Option<Outcome>>
    ensures { result ≡ settled_in byte }
{
    match byte {
        0 => Some(None),
        1 => Some(Some(Outcome::Commit)),
        2 => Some(Some(Outcome::Abort)),
        _ => None,
    }
}

/// The byte that tells how a deal has ended.
pub(crate) fn settled_byte(settled: Option<Outcome>) -> u8
    ensures { result ≡ settled_byte settled }
{
    match settled {
        None => 0,
        Some(Outcome::Commit) => 1,
        Some(Outcome::Abort) => 2,
    }
}
