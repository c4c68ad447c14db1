//! Reading the rows of a ledger's tables.

ghost use Rattle.std.specs.Prelude.{◌≡◌};
ghost use Rattle.std.specs.Result.{IsErr};
ghost use Rattle.keeper_core.specs.Knowing.{FailsNext};
ghost use Rattle.ledger_rows.specs.RowReading.{Reads, LacksForm, amount_said, free_said, free_refusal, deal_said, deal_refusal, amounts_said, hold_said, hold_refusal, count_said, moves_said, moves_refusal, used_said, used_refusal};

use crate::free_amount::FreeAmount;
use crate::hold::Hold;
use crate::keys::{free_key, hold_key, moves_key, used_key};
use crate::move_count::MoveCount;
use crate::registration::Registration;
use crate::row_value::read_row;
use crate::tables::{DEAL_TAB, FREE_TAB, HOLD_TAB, MOVES_TAB, USED_TAB};
use crate::used_key::UsedKey;
use dh_base::{Id, Name};
use keeper_core::{Keeper, StoreFault};
use std::alloc::Global;

fn amount_said(row: Option<FreeAmount>) -> u64
    ensures { result ≡ amount_said row }
{
    match row {
        None => 0,
        Some(free) => free.amount,
    }
}

fn amounts_said(row: Option<Hold>) -> Hold
    ensures { result ≡ amounts_said row }
{
    match row {
        None => Hold {
            commit: 0,
            abort: 0,
        },
        Some(hold) => hold,
    }
}

fn count_said(row: Option<MoveCount>) -> u32
    ensures { result ≡ count_said row }
{
    match row {
        None => 0,
        Some(moves) => moves.count,
    }
}

/// What an account can spend of an asset.
pub fn read_free<K: Keeper>(
    alloc: Global,
    keeper: &mut K,
    account: &Id,
    asset: &Name,
) -> Result<u64, StoreFault>
    ensures { Reads 1 (free_said account.now asset.now) (free_refusal account.now asset.now)
        LacksForm result (K.known keeper.old) (K.known keeper.new) }
{
    let key = free_key(alloc, account, asset)?;
    let row = read_row(alloc, keeper, FREE_TAB, &key)?;
    Ok(amount_said(row))
}

/// A deal, where it is registered.
pub fn read_registration<K: Keeper>(
    alloc: Global,
    keeper: &mut K,
    deal: &Id,
) -> Result<Option<Registration>, StoreFault>
    ensures { Reads 1 (deal_said deal.now) (deal_refusal deal.now) LacksForm result
        (K.known keeper.old) (K.known keeper.new) }
{
    read_row(alloc, keeper, DEAL_TAB, &deal.0)
}

/// What a party owns of an asset in a deal.
pub fn read_hold<K: Keeper>(
    alloc: Global,
    keeper: &mut K,
    deal: &Id,
    account: &Id,
    asset: &Name,
) -> Result<Hold, StoreFault>
    ensures { Reads 1 (hold_said deal.now account.now asset.now)
        (hold_refusal deal.now account.now asset.now) LacksForm result
        (K.known keeper.old) (K.known keeper.new) }
{
    let key = hold_key(alloc, deal, account, asset)?;
    let row = read_row(alloc, keeper, HOLD_TAB, &key)?;
    Ok(amounts_said(row))
}

/// How many transfers a party has made in a deal.
pub fn read_moves<K: Keeper>(
    alloc: Global,
    keeper: &mut K,
    deal: &Id,
    account: &Id,
) -> Result<u32, StoreFault>
    ensures { Reads 1 (moves_said deal.now account.now) (moves_refusal deal.now account.now)
        LacksForm result (K.known keeper.old) (K.known keeper.new) }
{
    let key = moves_key(alloc, deal, account)?;
    let row = read_row(alloc, keeper, MOVES_TAB, &key)?;
    Ok(count_said(row))
}

/// What a key of an account has signed that is accepted.
pub fn read_used<K: Keeper>(
    alloc: Global,
    keeper: &mut K,
    account: &Id,
    q: u32,
) -> Result<Option<UsedKey>, StoreFault>
    ensures reads { Reads 1 (used_said account.now q) (used_refusal account.now q) LacksForm result
        (K.known keeper.old) (K.known keeper.new) }
    ensures fails { FailsNext (K.known keeper.old) → IsErr result }
{
    let key = used_key(alloc, account, q)?;
    read_row(alloc, keeper, USED_TAB, &key)
}
