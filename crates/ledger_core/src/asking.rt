//! Questions to a ledger, by the rows of its keeper.

ghost use Rattle.std.specs.Prelude.{◌≡◌, ◌+◌, [], None, false, IfErr, IfOk, length};
ghost use Rattle.deal_core.specs.declared.deal_fault.DealFault.TheVariants.{NoMemory as OutOfMemory};
ghost use Rattle.escrow_book.specs.History.{settlement_of};
ghost use Rattle.std.specs.Result.{IsErrOf};
ghost use Rattle.keeper_core.specs.Knowing.{FailsNext, LooksAtMost};
ghost use Rattle.keeper_core.specs.Leaving.{Leaves, ended, of_store_fault};
ghost use Rattle.keeper_core.specs.Stepping.{WhereTold};
ghost use Rattle.keeper_core.specs.StoreFaults.{HasCause};
ghost use Rattle.ledger_rows.specs.Asking.{Asks};
ghost use Rattle.ledger_rows.specs.Entries.{book_of};
ghost use Rattle.ledger_rows.specs.RowKeys.{free_tab, hold_tab};
ghost use Rattle.ledger_rows.specs.RowReading.{LacksForm, deal_said};
ghost use Rattle.ledger_rows.specs.Scanning.{rows_in, scan_refusal, amount_at, AreInOrder, AreAmounts};
ghost use Rattle.ledger_core.specs.AskFaults.{of_ask_fault};
ghost use Rattle.ledger_core.specs.Questions.{TellsBy, settlement_refusal, outcome_of, rows_beside, AskCause};
ghost use Rattle.ledger_core.specs.Statements.{TellsParty, statement_refusal, AreOwned, IsStanding};

use crate::ask_fault::AskFault;
use act_text::HeldRow;
use deal_core::{DealFault, party_of, read_deal};
use dh_base::{Id, List, NoMemory, Outcome};
use keeper_core::{Keeper, StoreFault};
use ledger_rows::keys::moves_key;
use ledger_rows::{DEAL_TAB, FREE_TAB, HOLD_TAB, Registration, read_moves, read_row, scan_held};
use std::alloc::Global;

/// An id has 32 bytes.
pub(crate) fn wide(id: &Id)
    ensures { length id.now.0 ≡ 32 }
{
    let _bytes = id.0;
}

/// How a deal has ended, if it has.
pub(crate) fn settlement_at<K: Keeper>(
    alloc: Global,
    keeper: &mut K,
    deal: &Id,
) -> Result<Option<Outcome>, AskFault>
    ensures asks { Asks of_ask_fault (λ tables. 1) (settlement_refusal deal.now)
        (λ tables outcome. outcome ≡ outcome_of (deal_said deal.now tables)) result
        (K.known keeper.old) (K.known keeper.new) }
    ensures cause { IfErr result (AskCause (K.known keeper.new).tables) }
    ensures fails { FailsNext (K.known keeper.old)
        → IsErrOf result (AskFault.Store StoreFault.Keeper) }
{
    let row: Option<Registration> = read_row(alloc, keeper, DEAL_TAB, &deal.0)?;
    match row {
        None => Err(AskFault::UnknownDeal),
        Some(registration) => Ok(registration.settled),
    }
}

/// What an account can spend of each asset.
pub(crate) fn spendable<K: Keeper>(
    alloc: Global,
    keeper: &mut K,
    account: &Id,
) -> Result<List<HeldRow>, StoreFault>
    ensures asks { Asks of_store_fault (rows_in free_tab) (scan_refusal free_tab)
        (λ tables. AreAmounts (amount_at free_tab account.now.0 tables)) result
        (K.known keeper.old) (K.known keeper.new) }
    ensures order { IfOk result AreInOrder }
    ensures cause { IfErr result (HasCause LacksForm (K.known keeper.new).tables) }
    ensures fails { FailsNext (K.known keeper.old) → IsErrOf result StoreFault.Keeper }
{
    scan_held(alloc, keeper, FREE_TAB, &account.0)
}

/// How many transfers a party has made in a deal, and what it owns there if the deal commits.
#[derive(Drop)]
pub(crate) struct Owned {
    pub(crate) moves: u32,
    pub(crate) rows: List<HeldRow>,
}

/// What is told where the text of a deal was not read, as only for want of memory.
fn unread(fault: DealFault) -> Result<bool, NoMemory>
    ensures { IfOk result (λ is. (is ≡ false) × (fault ≡ OutOfMemory → ⊥)) }
{
    match fault {
        DealFault::NoMemory => Err(NoMemory),
        _ => Ok(false),
    }
}

/// Whether the account is a party of the deal of that text.
fn has_party(alloc: Global, text: &[u8], party: &Id) -> Result<bool, NoMemory>
    ensures { IfOk result (TellsParty text.now party.now) }
{
    match read_deal(alloc, text) {
        Ok(deal) => Ok(party_of(&deal, party).is_some()),
        Err(fault) => unread(fault),
    }
}

/// How the deal of a party has ended, if it has.
fn settlement_for<K: Keeper>(
    alloc: Global,
    keeper: &mut K,
    deal: &Id,
    party: &Id,
) -> Result<Option<Outcome>, AskFault>
    ensures tells { TellsBy of_ask_fault (statement_refusal deal.now party.now)
        (λ opened entries settled. settled
        ≡ settlement_of (book_of opened.rows entries) deal.now) result
        (K.known keeper.old) (K.known keeper.new) }
    ensures leaves { Leaves [] (ended of_ask_fault result) (K.known keeper.old)
        (K.known keeper.new) }
    ensures looked { LooksAtMost 1 (K.known keeper.old) (K.known keeper.new) }
    ensures cause { IfErr result (AskCause (K.known keeper.new).tables) }
    ensures fails { FailsNext (K.known keeper.old)
        → IsErrOf result (AskFault.Store StoreFault.Keeper) }
{
    let row: Option<Registration> = read_row(alloc, keeper, DEAL_TAB, &deal.0)?;
    let Some(registration) = row else {
        return Err(AskFault::UnknownDeal);
    };
    if has_party(alloc, registration.text.as_slice(), party)? {
        Ok(registration.settled)
    } else {
        Err(AskFault::NotAParty { account: *party })
    }
}

/// What a party has made and owns in a deal.
fn owned_in<K: Keeper>(
    alloc: Global,
    keeper: &mut K,
    deal: &Id,
    party: &Id,
) -> Result<Owned, StoreFault>
    requires deal { length deal.now.0 ≡ 32 }
    requires party { length party.now.0 ≡ 32 }
    ensures tells { TellsBy of_store_fault (λ entries. None)
        (λ opened entries. AreOwned (book_of opened.rows entries) deal.now party.now) result
        (K.known keeper.old) (K.known keeper.new) }
    ensures leaves { Leaves [] (ended of_store_fault result) (K.known keeper.old)
        (K.known keeper.new) }
    ensures looked { WhereTold (K.known keeper.old) (K.known keeper.new) (λ tables.
        LooksAtMost (1 + rows_in hold_tab tables) (K.known keeper.old) (K.known keeper.new)) }
    ensures order { IfOk result (λ owned. AreInOrder owned.rows) }
    ensures cause { IfErr result (HasCause LacksForm (K.known keeper.new).tables) }
{
    let moves = read_moves(alloc, keeper, deal, party)?;
    let front = moves_key(alloc, deal, party)?;
    let rows = scan_held(alloc, keeper, HOLD_TAB, &front)?;
    Ok(Owned { moves, rows })
}

/// What a ledger tells a party of a deal.
#[derive(Drop)]
pub(crate) struct Standing {
    pub(crate) settled: Option<Outcome>,
    pub(crate) owned: Owned,
}

/// What a party of a deal is told.
pub(crate) fn standing_of<K: Keeper>(
    alloc: Global,
    keeper: &mut K,
    deal: &Id,
    party: &Id,
) -> Result<Standing, AskFault>
    requires deal { length deal.now.0 ≡ 32 }
    requires party { length party.now.0 ≡ 32 }
    ensures tells { TellsBy of_ask_fault (statement_refusal deal.now party.now)
        (λ opened entries. IsStanding (book_of opened.rows entries) deal.now party.now) result
        (K.known keeper.old) (K.known keeper.new) }
    ensures leaves { Leaves [] (ended of_ask_fault result) (K.known keeper.old)
        (K.known keeper.new) }
    ensures looked { WhereTold (K.known keeper.old) (K.known keeper.new) (λ tables.
        LooksAtMost (rows_beside hold_tab tables) (K.known keeper.old) (K.known keeper.new)) }
    ensures order { IfOk result (λ standing. AreInOrder standing.owned.rows) }
    ensures cause { IfErr result (AskCause (K.known keeper.new).tables) }
    ensures fails { FailsNext (K.known keeper.old)
        → IsErrOf result (AskFault.Store StoreFault.Keeper) }
{
    let settled = settlement_for(alloc, keeper, deal, party)?;
    let owned = owned_in(alloc, keeper, deal, party)?;
    Ok(Standing { settled, owned })
}
