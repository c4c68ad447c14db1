//! The texts of records.

ghost use Rattle.std.specs.Prelude.{◌≡◌, ◌<◌, ◌^◌, false, IfOk, length};
ghost use Rattle.vote_log.specs.Entry.{Entry, IsInRange};
ghost use Rattle.vote_log.specs.RecordTexts.{kind_byte, record_text, kind_from, is_out_of_range, num_from, record_at, IsRecordAt};

use crate::kind::Kind;
use crate::log_record::LogRecord;
use crate::record_fault::RecordFault;
use dh_base::{MOST_PARTIES, next_id, next_u8, next_u16};

/// The bytes of a record's text.
pub const RECORD_LEN: usize = 35;

/// The byte of a kind.
fn kind_byte(kind: Kind) -> u8
    ensures { result ≡ kind_byte kind }
{
    match kind {
        Kind::Start => 1,
        Kind::Commit => 2,
        Kind::Abort => 3,
    }
}

/// The text of a record: its kind, its number and its deal.
pub fn record_text(rec: &LogRecord) -> [u8; RECORD_LEN]
    ensures { result ≡ record_text rec.now }
{
    let mut text = [0; RECORD_LEN];
    text[0] = kind_byte(rec.kind);
    text[1..3].copy_from_slice(&rec.num.to_be_bytes());
    text[3..].copy_from_slice(&rec.deal.0);
    text
}

/// The kind at a place, and the place behind it.
fn take_kind(bytes: &[u8], at: u32) -> Result<(Kind, u32), RecordFault>
    requires { length bytes.now < 2 ^ 32 }
    ensures { result ≡ kind_from bytes.now at }
{
    let (byte, next) = next_u8(bytes, at)?;
    match byte {
        1 => Ok((Kind::Start, next)),
        2 => Ok((Kind::Commit, next)),
        3 => Ok((Kind::Abort, next)),
        _ => Err(RecordFault { at }),
    }
}

/// Whether no record of the kind has that number.
#[tactic(auto, using(crate::proofs::RecordTexts::range_of))]
fn is_out_of_range(kind: Kind, num: u16) -> bool
    ensures value { result ≡ is_out_of_range kind num }
    ensures ranged { result ≡ false → IsInRange kind num }
{
    let num = num as usize;
    match kind {
        Kind::Start => num < 2 || MOST_PARTIES < num,
        Kind::Commit | Kind::Abort => MOST_PARTIES <= num,
    }
}

/// The number of a record of that kind, and the place behind it.
fn take_num(kind: Kind, bytes: &[u8], at: u32) -> Result<(u16, u32), RecordFault>
    requires { length bytes.now < 2 ^ 32 }
    ensures value { result ≡ num_from kind bytes.now at }
    ensures ranged { IfOk result (λ read. IsInRange kind read.0) }
{
    let (num, next) = next_u16(bytes, at)?;
    if is_out_of_range(kind, num) {
        return Err(RecordFault { at });
    }
    Ok((num, next))
}

/// The record at a place, by its fields.
#[tactic(auto, unfolding(crate::specs::RecordTexts::record_from))]
fn take_record(bytes: &[u8], at: u32) -> Result<LogRecord, RecordFault>
    requires { length bytes.now < 2 ^ 32 }
    ensures { result ≡ record_at bytes.now at }
{
    let (kind, next) = take_kind(bytes, at)?;
    let (num, next) = take_num(kind, bytes, next)?;
    let (deal, _) = next_id(bytes, next)?;
    Ok(LogRecord { kind, num, deal })
}

/// The record whose text begins at a place. What follows the text isn't looked at.
pub fn record_at(bytes: &[u8], at: u32) -> Result<LogRecord, RecordFault>
    requires { length bytes.now < 2 ^ 32 }
    // What is read stands there.
    ensures found { IfOk result (IsRecordAt bytes.now at) }
    // What stands there is read.
    ensures only { (rec : Entry) → IsRecordAt bytes.now at rec → result ≡ Ok rec }
    // Which field is the first at fault.
    ensures exact { result ≡ record_at bytes.now at }
{
    take_record(bytes, at)
}
