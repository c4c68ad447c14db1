//! The rows of a part of a book, as they stand in a ledger's tables.

ghost use Rattle.std.specs.Prelude.{◌≡◌, ◌&&◌, [], ◌∷◌, ◌++◌, ℕ, if◌then◌else◌, IfOk, OnOk, Some};
ghost use Rattle.std.specs.Option.{option_map};
ghost use Rattle.dh_base.specs.Ids.{same_id};
ghost use Rattle.escrow_book.specs.History.{is_in};
ghost use Rattle.ledger_rows.specs.RowReading.{Reads, LacksForm, both_said, either_refusal, free_said, free_refusal, deal_said, deal_refusal, hold_said, hold_refusal, moves_said, moves_refusal};
ghost use Rattle.ledger_acts.specs.Movements.{payment_rows, hold_row, escrow_rows, transfer_rows, movement_looks, movement_said, movement_form};

use crate::movement::Movement;
use deal_core::parties_in;
use dh_base::{Id, List, Name, NoMemory};
use escrow_book::BookRow;
use keeper_core::{Keeper, StoreFault};
use ledger_rows::{Hold, Registration, read_free, read_hold, read_moves, read_registration};
use std::alloc::Global;

/// What two accounts can spend of an asset.
fn read_both_free<K: Keeper>(
    alloc: Global,
    keeper: &mut K,
    from: &Id,
    to: &Id,
    asset: &Name,
) -> Result<(u64, u64), StoreFault>
    ensures { Reads 2 (both_said (free_said from.now asset.now) (free_said to.now asset.now))
        (either_refusal (free_refusal from.now asset.now) (free_refusal to.now asset.now))
        LacksForm result (K.known keeper.old) (K.known keeper.new) }
{
    let sender = read_free(alloc, keeper, from, asset)?;
    let receiver = read_free(alloc, keeper, to, asset)?;
    Ok((sender, receiver))
}

/// What two parties own of an asset in a deal.
fn read_both_holds<K: Keeper>(
    alloc: Global,
    keeper: &mut K,
    deal: &Id,
    from: &Id,
    to: &Id,
    asset: &Name,
) -> Result<(Hold, Hold), StoreFault>
    ensures { Reads 2
        (both_said (hold_said deal.now from.now asset.now) (hold_said deal.now to.now asset.now))
        (either_refusal (hold_refusal deal.now from.now asset.now)
        (hold_refusal deal.now to.now asset.now))
        LacksForm result (K.known keeper.old) (K.known keeper.new) }
{
    let sender = read_hold(alloc, keeper, deal, from, asset)?;
    let receiver = read_hold(alloc, keeper, deal, to, asset)?;
    Ok((sender, receiver))
}

/// What a party can spend of an asset, and what it owns of it in a deal.
fn read_own<K: Keeper>(
    alloc: Global,
    keeper: &mut K,
    deal: &Id,
    party: &Id,
    asset: &Name,
) -> Result<(u64, Hold), StoreFault>
    ensures { Reads 2
        (both_said (free_said party.now asset.now) (hold_said deal.now party.now asset.now))
        (either_refusal (free_refusal party.now asset.now)
        (hold_refusal deal.now party.now asset.now))
        LacksForm result (K.known keeper.old) (K.known keeper.new) }
{
    let free = read_free(alloc, keeper, party, asset)?;
    let hold = read_hold(alloc, keeper, deal, party, asset)?;
    Ok((free, hold))
}

/// How many transfers the sender has made in a deal, and what sender and receiver own there.
fn read_turn<K: Keeper>(
    alloc: Global,
    keeper: &mut K,
    deal: &Id,
    from: &Id,
    to: &Id,
    asset: &Name,
) -> Result<(u32, (Hold, Hold)), StoreFault>
    ensures { Reads 3
        (both_said (moves_said deal.now from.now)
        (both_said (hold_said deal.now from.now asset.now)
        (hold_said deal.now to.now asset.now)))
        (either_refusal (moves_refusal deal.now from.now)
        (either_refusal (hold_refusal deal.now from.now asset.now)
        (hold_refusal deal.now to.now asset.now)))
        LacksForm result (K.known keeper.old) (K.known keeper.new) }
{
    let moves = read_moves(alloc, keeper, deal, from)?;
    let holds = read_both_holds(alloc, keeper, deal, from, to, asset)?;
    Ok((moves, holds))
}

fn read_escrow<K: Keeper>(
    alloc: Global,
    keeper: &mut K,
    deal: &Id,
    party: &Id,
    asset: &Name,
) -> Result<(Option<Registration>, (u64, Hold)), StoreFault>
    ensures { Reads 3
        (both_said (deal_said deal.now)
        (both_said (free_said party.now asset.now) (hold_said deal.now party.now asset.now)))
        (either_refusal (deal_refusal deal.now)
        (either_refusal (free_refusal party.now asset.now)
        (hold_refusal deal.now party.now asset.now)))
        LacksForm result (K.known keeper.old) (K.known keeper.new) }
{
    let found = read_registration(alloc, keeper, deal)?;
    let own = read_own(alloc, keeper, deal, party, asset)?;
    Ok((found, own))
}

fn read_transfer<K: Keeper>(
    alloc: Global,
    keeper: &mut K,
    deal: &Id,
    from: &Id,
    to: &Id,
    asset: &Name,
) -> Result<(Option<Registration>, (u32, (Hold, Hold))), StoreFault>
    ensures { Reads 4
        (both_said (deal_said deal.now)
        (both_said (moves_said deal.now from.now)
        (both_said (hold_said deal.now from.now asset.now)
        (hold_said deal.now to.now asset.now))))
        (either_refusal (deal_refusal deal.now)
        (either_refusal (moves_refusal deal.now from.now)
        (either_refusal (hold_refusal deal.now from.now asset.now)
        (hold_refusal deal.now to.now asset.now))))
        LacksForm result (K.known keeper.old) (K.known keeper.new) }
{
    let found = read_registration(alloc, keeper, deal)?;
    let turn = read_turn(alloc, keeper, deal, from, to, asset)?;
    Ok((found, turn))
}

/// The rows of a payment's part, where sender and receiver can spend that.
fn payment_rows(
    alloc: Global,
    from: &Id,
    to: &Id,
    asset: &Name,
    said: (u64, u64),
) -> Result<List<BookRow>, NoMemory>
    ensures { IfOk result (λ rows. rows ≡ payment_rows from.now to.now asset.now said) }
{
    let mut rows = Vec::new(alloc);
    rows.push(free_row(from, asset, said.0))?;
    if from != to {
        rows.push(free_row(to, asset, said.1))?;
    }
    Ok(List::from_vec(rows))
}

fn free_row(account: &Id, asset: &Name, amount: u64) -> BookRow
    ensures { result ≡ BookRow.Free account.now asset.now amount }
{
    BookRow::Free {
        account: *account,
        asset: *asset,
        amount,
    }
}

fn hold_row(deal: &Id, account: &Id, asset: &Name, hold: &Hold) -> BookRow
    ensures { result ≡ hold_row deal.now account.now asset.now hold.now }
{
    BookRow::Hold {
        deal: *deal,
        account: *account,
        asset: *asset,
        commit: hold.commit,
        abort: hold.abort,
    }
}

/// The rows of an escrow's part behind that of the deal, if the account is a party.
fn put_own(
    rows: &mut Vec<BookRow>,
    is_party: bool,
    deal: &Id,
    party: &Id,
    asset: &Name,
    own: &(u64, Hold),
) -> Result<(), NoMemory>
    ensures { OnOk result (rows.new.items ≡ rows.old.items
        ++ (if is_party then BookRow.Free party.now asset.now own.now.0
        ∷ hold_row deal.now party.now asset.now own.now.1 ∷ [] else [])) }
{
    if !is_party {
        return Ok(());
    }
    rows.push(free_row(party, asset, own.0))?;
    rows.push(hold_row(deal, party, asset, &own.1))?;
    Ok(())
}

/// The rows of a transfer's part behind that of the deal, if both accounts are parties.
fn put_turn(
    rows: &mut Vec<BookRow>,
    are_parties: bool,
    deal: &Id,
    from: &Id,
    to: &Id,
    asset: &Name,
    turn: &(u32, (Hold, Hold)),
) -> Result<(), NoMemory>
    ensures { OnOk result (rows.new.items ≡ rows.old.items
        ++ (if are_parties then BookRow.Moves deal.now from.now turn.now.0
        ∷ hold_row deal.now from.now asset.now turn.now.1.0
        ∷ (if same_id from.now to.now then []
        else hold_row deal.now to.now asset.now turn.now.1.1 ∷ []) else [])) }
{
    if !are_parties {
        return Ok(());
    }
    rows.push(BookRow::Moves {
        deal: *deal,
        account: *from,
        moves: turn.0,
    })?;
    rows.push(hold_row(deal, from, asset, &turn.1.0))?;
    if from != to {
        rows.push(hold_row(deal, to, asset, &turn.1.1))?;
    }
    Ok(())
}

/// The rows of an escrow's part, where the deal is registered.
fn escrow_rows(
    alloc: Global,
    deal: &Id,
    party: &Id,
    asset: &Name,
    found: &Registration,
    own: &(u64, Hold),
) -> Result<List<BookRow>, NoMemory>
    ensures { IfOk result (λ rows. rows
        ≡ escrow_rows deal.now party.now asset.now (Some found.now, own.now)) }
{
    let parties = parties_in(alloc, found.text.as_slice())?;
    let is_party = parties.as_slice().contains(party);
    let mut rows = Vec::new(alloc);
    rows.push(BookRow::Deal {
        deal: *deal,
        parties,
        settled: found.settled,
    })?;
    put_own(&mut rows, is_party, deal, party, asset, own)?;
    Ok(List::from_vec(rows))
}

/// The rows of a transfer's part, where the deal is registered.
fn transfer_rows(
    alloc: Global,
    deal: &Id,
    from: &Id,
    to: &Id,
    asset: &Name,
    found: &Registration,
    turn: &(u32, (Hold, Hold)),
) -> Result<List<BookRow>, NoMemory>
    ensures { IfOk result (λ rows. rows
        ≡ transfer_rows deal.now from.now to.now asset.now (Some found.now, turn.now)) }
{
    let parties = parties_in(alloc, found.text.as_slice())?;
    let are_parties = parties.as_slice().contains(from) && parties.as_slice().contains(to);
    let mut rows = Vec::new(alloc);
    rows.push(BookRow::Deal {
        deal: *deal,
        parties,
        settled: found.settled,
    })?;
    put_turn(&mut rows, are_parties, deal, from, to, asset, turn)?;
    Ok(List::from_vec(rows))
}

fn escrow_rows_of(
    alloc: Global,
    deal: &Id,
    party: &Id,
    asset: &Name,
    said: (Option<Registration>, (u64, Hold)),
) -> Result<List<BookRow>, NoMemory>
    ensures { IfOk result (λ rows. rows ≡ escrow_rows deal.now party.now asset.now said) }
{
    let (found, own) = said;
    match found {
        None => Ok(List::from_vec(Vec::new(alloc))),
        Some(found) => escrow_rows(alloc, deal, party, asset, &found, &own),
    }
}

fn transfer_rows_of(
    alloc: Global,
    deal: &Id,
    from: &Id,
    to: &Id,
    asset: &Name,
    said: (Option<Registration>, (u32, (Hold, Hold))),
) -> Result<List<BookRow>, NoMemory>
    ensures { IfOk result (λ rows. rows
        ≡ transfer_rows deal.now from.now to.now asset.now said) }
{
    let (found, turn) = said;
    match found {
        None => Ok(List::from_vec(Vec::new(alloc))),
        Some(found) => transfer_rows(alloc, deal, from, to, asset, &found, &turn),
    }
}

fn read_payment_part<K: Keeper>(
    alloc: Global,
    keeper: &mut K,
    from: &Id,
    to: &Id,
    asset: &Name,
) -> Result<List<BookRow>, StoreFault>
    ensures { Reads 2
        (λ tables. option_map (payment_rows from.now to.now asset.now)
        (both_said (free_said from.now asset.now) (free_said to.now asset.now) tables))
        (either_refusal (free_refusal from.now asset.now) (free_refusal to.now asset.now))
        LacksForm result (K.known keeper.old) (K.known keeper.new) }
{
    let said = read_both_free(alloc, keeper, from, to, asset)?;
    let rows = payment_rows(alloc, from, to, asset, said)?;
    Ok(rows)
}

fn read_escrow_part<K: Keeper>(
    alloc: Global,
    keeper: &mut K,
    deal: &Id,
    party: &Id,
    asset: &Name,
) -> Result<List<BookRow>, StoreFault>
    ensures { Reads 3
        (λ tables. option_map (escrow_rows deal.now party.now asset.now)
        (both_said (deal_said deal.now)
        (both_said (free_said party.now asset.now) (hold_said deal.now party.now asset.now))
        tables))
        (either_refusal (deal_refusal deal.now)
        (either_refusal (free_refusal party.now asset.now)
        (hold_refusal deal.now party.now asset.now)))
        LacksForm result (K.known keeper.old) (K.known keeper.new) }
{
    let said = read_escrow(alloc, keeper, deal, party, asset)?;
    let rows = escrow_rows_of(alloc, deal, party, asset, said)?;
    Ok(rows)
}

fn read_transfer_part<K: Keeper>(
    alloc: Global,
    keeper: &mut K,
    deal: &Id,
    from: &Id,
    to: &Id,
    asset: &Name,
) -> Result<List<BookRow>, StoreFault>
    ensures { Reads 4
        (λ tables. option_map (transfer_rows deal.now from.now to.now asset.now)
        (both_said (deal_said deal.now)
        (both_said (moves_said deal.now from.now)
        (both_said (hold_said deal.now from.now asset.now)
        (hold_said deal.now to.now asset.now))) tables))
        (either_refusal (deal_refusal deal.now)
        (either_refusal (moves_refusal deal.now from.now)
        (either_refusal (hold_refusal deal.now from.now asset.now)
        (hold_refusal deal.now to.now asset.now))))
        LacksForm result (K.known keeper.old) (K.known keeper.new) }
{
    let said = read_transfer(alloc, keeper, deal, from, to, asset)?;
    let rows = transfer_rows_of(alloc, deal, from, to, asset, said)?;
    Ok(rows)
}

/// The rows of the part of the book that the movement touches.
pub(crate) fn read_part<K: Keeper>(
    alloc: Global,
    keeper: &mut K,
    movement: &Movement,
) -> Result<List<BookRow>, StoreFault>
    ensures { Reads (movement_looks movement.now)
        (λ tables. movement_said movement.now tables)
        (λ tables. movement_form movement.now tables)
        LacksForm result (K.known keeper.old) (K.known keeper.new) }
{
    match movement {
        Movement::Payment {
            from,
            to,
            asset,
            ..
        } => read_payment_part(alloc, keeper, from, to, asset),
        Movement::Escrow {
            deal,
            party,
            asset,
            ..
        } => read_escrow_part(alloc, keeper, deal, party, asset),
        Movement::Transfer {
            deal,
            from,
            to,
            asset,
            ..
        } => read_transfer_part(alloc, keeper, deal, from, to, asset),
    }
}
