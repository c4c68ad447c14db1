//! Reading all rows of a table.

ghost use Rattle.std.specs.Prelude.{◌≡◌, ◌⊎◌, Some, None, IfOk, IfErr, MatchResult};
ghost use Rattle.std.specs.Result.{IsErrOf};
ghost use Rattle.keeper_core.specs.Knowing.{FailsNext};
ghost use Rattle.keeper_core.specs.Leaving.{of_store_fault};
ghost use Rattle.keeper_core.specs.StoreFaults.{HasCause};
ghost use Rattle.keeper_core.specs.Tables.{rows_of};
ghost use Rattle.ledger_rows.specs.Asking.{Asks};
ghost use Rattle.ledger_rows.specs.OpenDeals.{deals_refusal};
ghost use Rattle.ledger_rows.specs.RowKeys.{free_tab, deal_tab, hold_tab};
ghost use Rattle.ledger_rows.specs.RowReading.{ReadsTable, LacksForm, first_formless, forms_refusal};
ghost use Rattle.ledger_rows.specs.RowValues.{registration_in};
ghost use Rattle.ledger_rows.specs.Scanning.{rows_in, scan_refusal, amount_at, AreInOrder, AreAmounts, settled_rows, settled_said};

use crate::held_rows::held_rows;
use crate::registration::Registration;
use crate::row_form::check_forms;
use crate::tables::DEAL_TAB;
use act_text::HeldRow;
use dh_base::List;
use keeper_core::{Keeper, Row, StoreFault};
use std::alloc::Global;

/// The rows of the table of free amounts or of that of holds. The first row that has not its form
/// is named.
fn scan_rows<K: Keeper>(keeper: &mut K, tab: u8) -> Result<List<Row>, StoreFault>
    requires { (tab ≡ free_tab) ⊎ (tab ≡ hold_tab) }
    ensures asks { Asks of_store_fault (rows_in tab) (scan_refusal tab)
        (λ tables rows. rows ≡ rows_of tab tables) result
        (K.known keeper.old) (K.known keeper.new) }
    ensures cause { IfErr result (HasCause LacksForm (K.known keeper.new).tables) }
    ensures fails { FailsNext (K.known keeper.old) → IsErrOf result StoreFault.Keeper }
{
    let rows = keeper.scan(tab)?;
    check_forms(tab, rows.as_slice())?;
    Ok(rows)
}

/// The amounts above 0 that the rows of the table begin with, by the assets that stand in their
/// keys behind that front: an account, in the table of free amounts, or a deal and an account, in
/// that of holds.
pub fn scan_held<K: Keeper>(
    alloc: Global,
    keeper: &mut K,
    tab: u8,
    front: &[u8],
) -> Result<List<HeldRow>, StoreFault>
    requires { (tab ≡ free_tab) ⊎ (tab ≡ hold_tab) }
    ensures asks { Asks of_store_fault (rows_in tab) (scan_refusal tab)
        (λ tables. AreAmounts (amount_at tab front.now tables)) result
        (K.known keeper.old) (K.known keeper.new) }
    ensures order { IfOk result AreInOrder }
    ensures cause { IfErr result (HasCause LacksForm (K.known keeper.new).tables) }
    ensures fails { FailsNext (K.known keeper.old) → IsErrOf result StoreFault.Keeper }
{
    let rows = scan_rows(keeper, tab)?;
    Ok(held_rows(alloc, rows.as_slice(), front)?)
}

/// How many of the rows are deals that have ended.
fn settled_among(rows: &[Row]) -> Result<usize, StoreFault>
    ensures { MatchResult result
        (λ count. (first_formless registration_in rows.now ≡ None)
        × (count ≡ settled_rows rows.now))
        (λ fault. forms_refusal registration_in deal_tab rows.now ≡ Some fault) }
{
    let mut count = 0;
    for row in rows {
        match Registration::is_settled_in(row.val.as_slice()) {
            Some(true) => count += 1,
            Some(false) => {}
            None => return Err(StoreFault::bad_row(DEAL_TAB, row.key.as_slice())),
        }
    }
    Ok(count)
}

/// How many registered deals have ended.
pub fn count_settled<K: Keeper>(keeper: &mut K) -> Result<usize, StoreFault>
    ensures { ReadsTable 1 deal_tab settled_said deals_refusal LacksForm result
        (K.known keeper.old) (K.known keeper.new) }
{
    let rows = keeper.scan(DEAL_TAB)?;
    settled_among(rows.as_slice())
}
