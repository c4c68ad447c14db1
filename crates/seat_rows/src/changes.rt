//! What a seat commits.

ghost use Rattle.std.specs.Prelude.{◌≡◌, ◌++◌, OnOk, IfOk};
ghost use Rattle.deal_log.specs.Postings.{entry_of};
ghost use Rattle.seat_rows.specs.SeatTables.{form_text, closing_text};
ghost use Rattle.seat_rows.specs.SeatChanges.{form_changes, record_changes, text_changes, entry_changes, closing_changes};

use crate::closing::Closing;
use crate::place::SeatPlace;
use cert_core::write_set;
use deal_log::Posting;
use dh_base::{Id, NoMemory, put_id, put_u8, put_u32};
use keeper_core::Batch;
use std::alloc::Global;
use vote_log::{LogRecord, record_text};

/// The table of what a keeper is.
pub const FORM_TAB: u8 = 1;

/// The table of signed texts, which the signer keeps.
pub const USED_TAB: u8 = 8;

/// The table of records.
pub const RECORD_TAB: u8 = 9;

/// The table of the texts of deals.
pub const TEXT_TAB: u8 = 10;

/// The table of beginning and closing.
pub const PHASE_TAB: u8 = 11;

pub const FORM_KEY: &[u8; 1] = b"m";

pub const BEGUN_KEY: &[u8; 1] = b"b";

pub const CLOSING_KEY: &[u8; 1] = b"c";

fn form_text(alloc: Global, place: &SeatPlace, account: &Id) -> Result<Vec<u8>, NoMemory>
    ensures { IfOk result (λ text. text.items ≡ form_text place.now account.now.0) }
{
    let mut text = Vec::new(alloc);
    put_u8(&mut text, 1)?;
    put_u8(&mut text, 2)?;
    put_id(&mut text, &place.identity(account))?;
    Ok(text)
}

/// What is committed when a seat is opened for the first time.
pub fn form_batch(alloc: Global, place: &SeatPlace, account: &Id) -> Result<Batch, NoMemory>
    ensures { IfOk result (λ batch. batch ≡ form_changes place.now account.now.0) }
{
    let text = form_text(alloc, place, account)?;
    let mut batch = Batch::new(alloc);
    batch.put(FORM_TAB, FORM_KEY, &text)?;
    Ok(batch)
}

fn put_record(batch: &mut Batch, at: u32, rec: &Option<LogRecord>) -> Result<(), NoMemory>
    ensures { OnOk result (batch.new ≡ batch.old ++ record_changes at rec.now) }
{
    match rec {
        Some(rec) => batch.put(RECORD_TAB, &at.to_be_bytes(), &record_text(rec)),
        None => Ok(()),
    }
}

fn put_text(batch: &mut Batch, posting: &Posting) -> Result<(), NoMemory>
    ensures { OnOk result (batch.new ≡ batch.old ++ text_changes posting.now) }
{
    match posting {
        Posting::Start { text, .. } => batch.put(TEXT_TAB, &text.id().0, text.text()),
        Posting::Vote { .. } => Ok(()),
    }
}

/// What is committed when what is asked is entered at that place.
pub fn entry_batch(alloc: Global, at: u32, posting: &Posting) -> Result<Batch, NoMemory>
    ensures { IfOk result (λ batch. batch ≡ entry_changes at posting.now) }
{
    let mut batch = Batch::new(alloc);
    put_record(&mut batch, at, &posting.record())?;
    put_text(&mut batch, posting)?;
    Ok(batch)
}

fn closing_text(alloc: Global, closing: &Closing) -> Result<Vec<u8>, NoMemory>
    ensures { IfOk result (λ text. text.items ≡ closing_text closing.now) }
{
    let set_text = write_set(alloc, &closing.next)?;
    let mut text = Vec::new(alloc);
    put_u32(&mut text, closing.len)?;
    text.extend_from_slice(set_text.as_slice())?;
    Ok(text)
}

/// What is committed when a seat is closed.
pub fn closing_batch(alloc: Global, closing: &Closing) -> Result<Batch, NoMemory>
    ensures { IfOk result (λ batch. batch ≡ closing_changes closing.now) }
{
    let text = closing_text(alloc, closing)?;
    let mut batch = Batch::new(alloc);
    batch.put(PHASE_TAB, CLOSING_KEY, &text)?;
    Ok(batch)
}
