//! Counting the deals that an account has registered and that are not settled.

ghost use Rattle.std.specs.Prelude.{◌≡◌, Some, None, MatchResult};
ghost use Rattle.ledger_rows.specs.OpenDeals.{open_rows, open_said, deals_refusal, room_said, room_refusal};
ghost use Rattle.ledger_rows.specs.RowKeys.{deal_tab};
ghost use Rattle.ledger_rows.specs.RowReading.{ReadsTable, LacksForm, first_formless, forms_refusal};
ghost use Rattle.ledger_rows.specs.RowValues.{registration_in};

use crate::reading::read_registration;
use crate::registration::Registration;
use crate::tables::DEAL_TAB;
use dh_base::Id;
use keeper_core::{Keeper, Row, StoreFault};
use std::alloc::Global;

/// How many of the rows are deals that the account has registered and that are not settled.
fn open_among(rows: &[Row], account: &Id) -> Result<usize, StoreFault>
    ensures { MatchResult result
        (λ count. (first_formless registration_in rows.now ≡ None)
        × (count ≡ open_rows account.now rows.now))
        (λ fault. forms_refusal registration_in deal_tab rows.now ≡ Some fault) }
{
    let mut count = 0;
    for row in rows {
        match Registration::is_open_in(row.val.as_slice(), account) {
            Some(true) => count += 1,
            Some(false) => {}
            None => return Err(StoreFault::bad_row(DEAL_TAB, row.key.as_slice())),
        }
    }
    Ok(count)
}

/// How many deals an account has registered that are not settled.
pub fn count_open<K: Keeper>(keeper: &mut K, account: &Id) -> Result<usize, StoreFault>
    ensures { ReadsTable 1 deal_tab (open_said account.now) deals_refusal LacksForm result
        (K.known keeper.old) (K.known keeper.new) }
{
    let rows = keeper.scan(DEAL_TAB)?;
    open_among(rows.as_slice(), account)
}

/// The same, unless that deal is registered.
pub fn count_open_unless<K: Keeper>(
    alloc: Global,
    keeper: &mut K,
    account: &Id,
    deal: &Id,
) -> Result<Option<usize>, StoreFault>
    ensures { ReadsTable 2 deal_tab (room_said account.now deal.now) (room_refusal deal.now)
        LacksForm result (K.known keeper.old) (K.known keeper.new) }
{
    let found = read_registration(alloc, keeper, deal)?;
    if found.is_some() {
        return Ok(None);
    }
    let count = count_open(keeper, account)?;
    Ok(Some(count))
}
