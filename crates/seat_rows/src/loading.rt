//! The state of a seat, as its rows have it.

ghost use Rattle.std.specs.Prelude.{◌≡◌, ◌<◌, ◌^◌, [], true, None, IfOk, IfErr, IfSome, OnOk, Some, length};
ghost use Rattle.std.specs.List.{position_from};
ghost use Rattle.std.specs.Int.{w32, to_be_bytes};
ghost use Rattle.keeper_core.specs.StoreFaults.{bad_row_of};
ghost use Rattle.seat_rows.specs.SeatTables.{begun_row, record_tab};
ghost use Rattle.key_ring.specs.Signers.{SignerTold};
ghost use Rattle.seat_rows.specs.SeatPlaces.{is_first};
ghost use Rattle.seat_rows.specs.SeatTexts.{IsSound, has_handed};
ghost use Rattle.seat_rows.specs.SeatOpening.{AreRowsOf};
ghost use Rattle.seat_rows.specs.SeatLoading.{holds_text, is_unheld, IsClosedBy, IsKeptLog, IsBegunFault, IsClosingFault, IsEarlyFault, IsLogFault, IsLastFault, IsStateFault, ArePhases, IsLogIn};

use crate::changes::{BEGUN_KEY, CLOSING_KEY, PHASE_TAB, RECORD_TAB, TEXT_TAB, USED_TAB};
use crate::closing::Closing;
use crate::lists::{read_records, read_texts};
use crate::place::SeatPlace;
use crate::row_values::{closing_in, length_in};
use crate::rows::SeatRows;
use crate::seat_texts::has_handed;
use crate::state::SeatState;
use deal_log::{RebuildFault, VoteLog};
use dh_base::{List, digest};
use keeper_core::{Row, StoreFault};
use key_ring::Signer;
use std::alloc::Global;
use vote_log::LogRecord;

/// Where the seat began, by its row of that. A seat of the set of epoch 0 has none.
fn begun_of(place: &SeatPlace, row: &Option<List<u8>>) -> Result<Option<u32>, StoreFault>
    ensures found { IfOk result (λ begun. row.now ≡ begun_row place.now begun) }
    ensures first { IfOk result (λ begun. is_first place.now ≡ true → begun ≡ Some 0) }
    ensures fault { IfErr result (IsBegunFault place.now row.now) }
{
    let first = place.is_first();
    match row {
        None if first => Ok(Some(0)),
        None => Ok(None),
        Some(row) => match length_in(row.as_slice()) {
            Some(len) if !first => Ok(Some(len)),
            _ => Err(StoreFault::bad_row(PHASE_TAB, BEGUN_KEY)),
        },
    }
}

/// For which set the seat is closed at the end of so many records, by its row of that.
fn closing_of(
    begun: &Option<u32>,
    records: usize,
    row: &Option<List<u8>>,
) -> Result<Option<Closing>, StoreFault>
    ensures found { IfOk result (IsClosedBy begun.now records row.now) }
    ensures fault { IfErr result (IsClosingFault begun.now records row.now) }
{
    let Some(row) = row else { return Ok(None) };
    match closing_in(row.as_slice()) {
        Some(closing) if begun.is_some() && closing.len as usize == records => Ok(Some(closing)),
        _ => Err(StoreFault::bad_row(PHASE_TAB, CLOSING_KEY)),
    }
}

/// A list that has not begun has no records.
fn check_begun(begun: &Option<u32>, records: &List<Row>) -> Result<(), StoreFault>
    ensures empty { OnOk result (begun.now ≡ None → records.now ≡ []) }
    ensures fault { IfErr result (IsEarlyFault begun.now records.now) }
{
    match records.as_slice().first() {
        Some(row) if begun.is_none() => Err(StoreFault::bad_row(RECORD_TAB, row.key.as_slice())),
        _ => Ok(()),
    }
}

/// Whether the log keeps the text.
fn holds_text(log: &VoteLog, text: &List<u8>) -> bool
    ensures { result ≡ holds_text log.now.texts text.now }
{
    let id = digest(text.as_slice());
    match log.text_of(&id) {
        Some(kept) => kept == text.as_slice(),
        None => false,
    }
}

/// The place of the first of the texts that the log doesn't keep.
fn first_unheld(log: &VoteLog, texts: &[List<u8>]) -> Option<usize>
    ensures place { result ≡ position_from (is_unheld log.now.texts) 0 texts.now }
    ensures within { IfSome result (λ at. at < length texts.now) }
{
    for (at, text) in texts.iter().enumerate() {
        if !holds_text(log, text) {
            return Some(at);
        }
    }
    None
}

/// The fault that names the record of that number.
fn bad_record(at: u32) -> StoreFault
    ensures { result ≡ bad_row_of record_tab (to_be_bytes w32 at) }
{
    StoreFault::bad_row(RECORD_TAB, &at.to_be_bytes())
}

/// The log of these records and texts, which keeps all of the texts.
fn log_of(
    alloc: Global,
    place: &SeatPlace,
    recs: &[LogRecord],
    texts: &[List<u8>],
) -> Result<VoteLog, StoreFault>
    requires { length recs.now < 2 ^ 32 }
    ensures found { IfOk result (IsKeptLog place.now recs.now texts.now) }
    ensures fault { IfErr result (IsLogFault place.now recs.now texts.now) }
{
    let log = match VoteLog::rebuild(alloc, &place.house(), recs, texts) {
        Ok(log) => log,
        Err(RebuildFault::BadRecords { at }) => return Err(bad_record(at)),
        Err(RebuildFault::TextMissing { at }) => return Err(bad_record(at)),
        Err(RebuildFault::NoMemory) => return Err(StoreFault::NoMemory),
    };
    match first_unheld(&log, texts) {
        Some(at) => Err(StoreFault::bad_row(TEXT_TAB, &digest(texts[at].as_slice()).0)),
        None => Ok(log),
    }
}

/// The last key has signed the handover, if it has signed.
fn check_last_key(place: &SeatPlace, state: &SeatState) -> Result<(), StoreFault>
    ensures held { OnOk result (length state.now.signer.texts ≡ state.now.signer.spec.size
        → has_handed place.now state.now ≡ true) }
    ensures fault { IfErr result (IsLastFault place.now state.now) }
{
    let used = state.signer.used();
    if used == state.signer.size() && !has_handed(place, state) {
        let last = u32::from(used).saturating_sub(1);
        return Err(StoreFault::bad_row(USED_TAB, &last.to_be_bytes()));
    }
    Ok(())
}

/// Where the seat began, and for which set it is closed.
#[derive(Drop)]
struct Phases {
    begun: Option<u32>,
    closing: Option<Closing>,
}

/// Where the seat began and for which set it is closed, as the rows have it.
fn phases_of(place: &SeatPlace, rows: &SeatRows) -> Result<Phases, StoreFault>
    ensures found { IfOk result (ArePhases place.now rows.now) }
    ensures fault { (signer : SignerTold) → IfErr result (IsStateFault place.now rows.now signer) }
{
    let begun = begun_of(place, &rows.begun)?;
    let closing = closing_of(&begun, rows.records.len(), &rows.closing)?;
    check_begun(&begun, &rows.records)?;
    Ok(Phases { begun, closing })
}

/// The log of the rows.
fn log_in(alloc: Global, place: &SeatPlace, rows: SeatRows) -> Result<VoteLog, StoreFault>
    ensures found { IfOk result (IsLogIn place.now rows) }
    ensures fault { (signer : SignerTold) → IfErr result (IsStateFault place.now rows signer) }
{
    let SeatRows { records, texts, .. } = rows;
    let recs = read_records(alloc, records)?;
    let texts = read_texts(alloc, texts)?;
    log_of(alloc, place, &recs, &texts)
}

/// The state of a seat with that signer, as the rows have it; or the first row that lacks its form.
pub fn state_of(
    alloc: Global,
    place: &SeatPlace,
    rows: SeatRows,
    signer: Signer,
) -> Result<SeatState, StoreFault>
    ensures rows { IfOk result (AreRowsOf place.now rows) }
    ensures signer { IfOk result (λ state. state.signer ≡ signer) }
    ensures sound { IfOk result (IsSound place.now) }
    ensures fault { IfErr result (IsStateFault place.now rows signer) }
{
    let _used = signer.used();
    let phases = phases_of(place, &rows)?;
    let log = log_in(alloc, place, rows)?;
    let Phases { begun, closing } = phases;
    let state = SeatState {
        signer,
        log,
        begun,
        closing,
    };
    check_last_key(place, &state)?;
    Ok(state)
}
