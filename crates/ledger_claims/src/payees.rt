//! Who is paid by a settlement, and what each can spend before it.

ghost use Rattle.std.specs.Prelude.{◌≡◌, Some, length, IfErr};
ghost use Rattle.keeper_core.specs.Leaving.{of_store_fault};
ghost use Rattle.keeper_core.specs.StoreFaults.{HasCause};
ghost use Rattle.ledger_rows.specs.Asking.{Asks};
ghost use Rattle.ledger_rows.specs.RowReading.{Reads, LacksForm};
ghost use Rattle.ledger_claims.specs.Payees.{payees_said, payees_refusal, payees_at, payees_form, beside_twice};

use crate::owned::scan_owned;
use dh_base::{Id, List};
use escrow_book::HoldRow;
use keeper_core::{Keeper, StoreFault};
use ledger_rows::read_free;
use std::alloc::Global;

/// What a party owns of an asset in a deal, and what it can spend of the asset.
#[derive(Clone, Copy)]
pub struct Payee {
    pub hold: HoldRow,
    pub free: u64,
}

/// The owners, with what each can spend.
fn read_payees<K: Keeper>(
    alloc: Global,
    keeper: &mut K,
    owned: &[HoldRow],
) -> Result<List<Payee>, StoreFault>
    ensures { Reads (length owned.now) (payees_said owned.now) (payees_refusal owned.now)
        LacksForm result (K.known keeper.old) (K.known keeper.new) }
{
    let mut payees = Vec::new(alloc);
    for hold in owned {
        let free = read_free(alloc, keeper, &hold.account, &hold.asset)?;
        payees.push(Payee { hold: *hold, free })?;
    }
    Ok(List::from_vec(payees))
}

/// Who owns something in the deal, with what each can spend.
pub(crate) fn payees_of<K: Keeper>(
    alloc: Global,
    keeper: &mut K,
    deal: &Id,
) -> Result<List<Payee>, StoreFault>
    ensures asks { Asks of_store_fault (beside_twice 1) (payees_form deal.now)
        (λ tables payees. payees_at deal.now tables ≡ Some payees) result
        (K.known keeper.old) (K.known keeper.new) }
    ensures cause { IfErr result (HasCause LacksForm (K.known keeper.new).tables) }
{
    let owned = scan_owned(alloc, keeper, deal)?;
    read_payees(alloc, keeper, owned.as_slice())
}
