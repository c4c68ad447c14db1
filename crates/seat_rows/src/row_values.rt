//! What single rows of a seat are read as.

ghost use Rattle.std.specs.Prelude.{◌≡◌, IfSome};
ghost use Rattle.std.specs.Int.{w32, to_be_bytes};
ghost use Rattle.seat_rows.specs.SeatTables.{closing_text};
ghost use Rattle.seat_rows.specs.SeatReading.{form_in, length_in, closing_in, record_in, is_named};

use crate::closing::Closing;
use cert_core::read_set;
use dh_base::{Id, digest};
use keeper_core::Row;
use vote_log::{LogRecord, record_at, record_text};

/// The most bytes of a row of closing: a length, and the text of a set of 16 seats.
const MOST_CLOSING: usize = 530;

/// The identity of the seat that the tables are of.
pub fn form_in(bytes: &[u8]) -> Option<Id>
    ensures { result ≡ form_in bytes.now }
{
    if bytes.len() != 34 || bytes[0] != 1 || bytes[1] != 2 {
        return None;
    }
    let mut identity = [0; 32];
    identity.copy_from_slice(&bytes[2..]);
    Some(Id(identity))
}

/// The length of four bytes.
pub(crate) fn length_in(bytes: &[u8]) -> Option<u32>
    ensures value { result ≡ length_in bytes.now }
    ensures spelled { IfSome result (λ len. bytes.now ≡ to_be_bytes w32 len) }
{
    if bytes.len() != 4 {
        return None;
    }
    Some(u32::from_be_bytes([bytes[0], bytes[1], bytes[2], bytes[3]]))
}

/// For which set a seat is closed, and at which length.
pub(crate) fn closing_in(bytes: &[u8]) -> Option<Closing>
    ensures value { result ≡ closing_in bytes.now }
    ensures spelled { IfSome result (λ closing. bytes.now ≡ closing_text closing) }
{
    if bytes.len() < 4 || MOST_CLOSING < bytes.len() {
        return None;
    }
    let len = u32::from_be_bytes([bytes[0], bytes[1], bytes[2], bytes[3]]);
    match read_set(&bytes[4..]) {
        Ok(next) => Some(Closing { len, next }),
        Err(_) => None,
    }
}

/// The record of that number.
pub(crate) fn record_in(at: usize, row: &Row) -> Option<LogRecord>
    ensures { result ≡ record_in at row.now }
{
    let val = row.val.as_slice();
    if 4096 <= at || row.key.as_slice() != (at as u32).to_be_bytes().as_slice() || val.len() != 35 {
        return None;
    }
    match record_at(val, 0) {
        Ok(rec) if record_text(&rec).as_slice() == val => Some(rec),
        _ => None,
    }
}

/// Whether the text stands under its digest.
pub(crate) fn is_named(row: &Row) -> bool
    ensures { result ≡ is_named row.now }
{
    row.key.as_slice() == digest(row.val.as_slice()).0.as_slice()
}
