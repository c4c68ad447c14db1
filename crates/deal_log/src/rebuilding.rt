//! Making a log again from its records and the texts of its deals.

ghost use Rattle.std.specs.Prelude.{◌≡◌, ◌<◌, ◌^◌, MatchResult, OnOk, IfOk, true, false, length};
ghost use Rattle.std.specs.List.{position_from};
ghost use Rattle.vote_log.specs.Admission.{IsLog};
ghost use Rattle.deal_log.specs.VoteLogs.{most_records, IsStartedText};
ghost use Rattle.deal_log.specs.DealTexts.{id_in};
ghost use Rattle.deal_log.specs.Rebuilding.{IsRecordsFault, KeepsText, KeepsGiven, is_unkept};

use crate::deal_text::DealText;
use crate::deal_texts::DealTexts;
use crate::log::MOST_RECORDS;
use crate::rebuild_fault::RebuildFault;
use deal_core::DealFault;
use deal_core::laws::one_answer;
use dh_base::{Id, List, NoMemory};
use std::alloc::Global;
use vote_log::{Kind, LogFault, LogRecord, Records};

/// The log of these records, each of which it takes behind those before it.
pub(crate) fn records_of(alloc: Global, recs: &[LogRecord]) -> Result<Records, RebuildFault>
    requires { length recs.now < 2 ^ 32 }
    ensures { MatchResult result
        (λ log. (log ≡ record { entries = recs.now; limit = most_records })
        × IsLog recs.now most_records)
        (IsRecordsFault recs.now) }
{
    let mut records = Records::new(alloc, MOST_RECORDS);
    for (at, rec) in recs.iter().enumerate() {
        match records.add(rec) {
            Ok(_) => {}
            Err(LogFault::NoMemory) => return Err(RebuildFault::NoMemory),
            Err(_) => return Err(RebuildFault::BadRecords { at: at as u32 }),
        }
    }
    Ok(records)
}

/// Whether the text is for a deal that the log starts, of this house.
fn is_started(house: &Id, records: &Records, text: &DealText) -> bool
    ensures yes { result ≡ true
        → IsStartedText house.now records.now.entries (id_in text.now) text.now }
    ensures no { result ≡ false
        → IsStartedText house.now records.now.entries (id_in text.now) text.now → ⊥ }
{
    text.house() == *house && records.parties(&text.id()) == Some(text.parties())
}

/// Keeps the text of a deal, where the log starts the deal.
fn keep_started(
    house: &Id,
    records: &Records,
    kept: &mut DealTexts,
    text: DealText,
) -> Result<(), NoMemory>
    ensures { OnOk result (KeepsText house.now records.now.entries text kept.old kept.new) }
{
    if is_started(house, records, &text) {
        kept.put(text)
    } else {
        Ok(())
    }
}

/// Keeps the text, where it is for a deal that the log starts.
fn keep_text(
    alloc: Global,
    house: &Id,
    records: &Records,
    kept: &mut DealTexts,
    text: &List<u8>,
) -> Result<(), NoMemory>
    ensures { OnOk result
        (KeepsText house.now records.now.entries text.now kept.old kept.new) }
{
    one_answer();
    let copy = List::from_vec(Vec::from_slice(alloc, text.as_slice())?);
    let fault = match DealText::read(alloc, copy) {
        Ok(text) => return keep_started(house, records, kept, text),
        Err(fault) => fault,
    };
    match fault {
        DealFault::NoMemory => Err(NoMemory),
        _ => Ok(()),
    }
}

/// Those of the texts that are for deals that the log starts.
pub(crate) fn texts_of(
    alloc: Global,
    house: &Id,
    records: &Records,
    texts: &[List<u8>],
) -> Result<DealTexts, NoMemory>
    ensures { IfOk result (KeepsGiven house.now records.now.entries texts.now) }
{
    let mut kept = DealTexts::new(alloc);
    for text in texts {
        keep_text(alloc, house, records, &mut kept, text)?;
    }
    Ok(kept)
}

/// Whether the record starts a deal that can be voted on, and no text of it is kept.
fn is_unkept(records: &Records, kept: &DealTexts, rec: &LogRecord) -> bool
    ensures { result ≡ is_unkept records.now.entries kept.now rec.now }
{
    let deal = rec.deal;
    match rec.kind {
        Kind::Start => records.votable(&deal).is_ok() && kept.get(&deal).is_none(),
        _ => false,
    }
}

/// The place of the first such record.
pub(crate) fn first_unkept(records: &Records, kept: &DealTexts, recs: &[LogRecord]) -> Option<u32>
    requires { length recs.now < 2 ^ 32 }
    ensures { result ≡ position_from (is_unkept records.now.entries kept.now) 0 recs.now }
{
    for (at, rec) in recs.iter().enumerate() {
        if is_unkept(records, kept, rec) {
            return Some(at as u32);
        }
    }
    None
}
