//! The rows that a seat finds.

ghost use Rattle.std.specs.Prelude.{◌≡◌, [], IfOk, IfErr, IfSome};
ghost use Rattle.keeper_core.specs.Leaving.{Leaves, ended, of_store_fault};
ghost use Rattle.seat_rows.specs.SeatReading.{rows_in, IsStoreOnly};

use crate::changes::{BEGUN_KEY, CLOSING_KEY, FORM_KEY, FORM_TAB, PHASE_TAB, RECORD_TAB, TEXT_TAB};
use dh_base::List;
use keeper_core::{Keeper, Row, StoreFault};

/// The rows of a seat, beside those of its signer.
#[derive(Drop)]
pub struct SeatRows {
    pub form: Option<List<u8>>,
    pub begun: Option<List<u8>>,
    pub closing: Option<List<u8>>,
    pub records: List<Row>,
    pub texts: List<Row>,
}

/// Reads the rows of a seat.
pub fn read_rows<K: Keeper>(keeper: &mut K) -> Result<SeatRows, StoreFault>
    ensures rows { IfOk result (λ rows. IfSome (K.known keeper.new).tables
        (λ tables. rows ≡ rows_in tables)) }
    ensures leaves { Leaves [] (ended of_store_fault result) (K.known keeper.old)
        (K.known keeper.new) }
    ensures store { IfErr result IsStoreOnly }
{
    let form = keeper.get(FORM_TAB, FORM_KEY)?;
    let begun = keeper.get(PHASE_TAB, BEGUN_KEY)?;
    let closing = keeper.get(PHASE_TAB, CLOSING_KEY)?;
    let records = keeper.scan(RECORD_TAB)?;
    let texts = keeper.scan(TEXT_TAB)?;
    Ok(SeatRows {
        form,
        begun,
        closing,
        records,
        texts,
    })
}
