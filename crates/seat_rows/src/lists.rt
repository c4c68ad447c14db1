//! The records and the texts of deals that rows hold.

ghost use Rattle.std.specs.Prelude.{◌≡◌, ◌≤◌, IfOk, IfErr, length};
ghost use Rattle.std.specs.Int.{w32};
ghost use Rattle.keeper_core.specs.NumberedRows.{numbered_rows};
ghost use Rattle.seat_rows.specs.SeatTables.{record_texts};
ghost use Rattle.seat_rows.specs.SeatReading.{text_rows, IsRecordFault, IsTextFault};

use crate::changes::{RECORD_TAB, TEXT_TAB};
use crate::row_values::{is_named, record_in};
use dh_base::List;
use keeper_core::{Row, StoreFault};
use std::alloc::Global;
use vote_log::LogRecord;

/// The records of the rows, where each row is that of the next number; or the first row that is
/// not.
pub(crate) fn read_records(alloc: Global, rows: List<Row>) -> Result<Vec<LogRecord>, StoreFault>
    ensures rows { IfOk result (λ recs. rows ≡ numbered_rows w32 0 (record_texts recs.items)) }
    ensures few { IfOk result (λ recs. length recs.items ≤ 4096) }
    ensures fault { IfErr result (IsRecordFault rows) }
{
    let mut recs = Vec::new(alloc);
    for row in rows.into_vec() {
        let Some(rec) = record_in(recs.len(), &row) else {
            return Err(StoreFault::bad_row(RECORD_TAB, row.key.as_slice()));
        };
        recs.push(rec)?;
    }
    Ok(recs)
}

/// The texts of the rows, where each stands under its digest; or the first row that does not.
pub(crate) fn read_texts(alloc: Global, rows: List<Row>) -> Result<Vec<List<u8>>, StoreFault>
    ensures rows { IfOk result (λ texts. rows ≡ text_rows texts.items) }
    ensures fault { IfErr result (IsTextFault rows) }
{
    let mut texts = Vec::new(alloc);
    for row in rows.into_vec() {
        if !is_named(&row) {
            return Err(StoreFault::bad_row(TEXT_TAB, row.key.as_slice()));
        }
        let Row { key: _, val } = row;
        texts.push(val)?;
    }
    Ok(texts)
}
