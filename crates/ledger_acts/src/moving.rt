//! Movements, by the rows that they read.

ghost use Rattle.std.specs.Prelude.{◌≡◌, ◌++◌, [], IfOk, IfErr, OnOk, MatchResult, Some, None};
ghost use Rattle.std.specs.List.{slice_get};
ghost use Rattle.escrow_book.specs.History.{free_of, moves_of, with_change};
ghost use Rattle.escrow_book.specs.Reached.{IsGrown};
ghost use Rattle.escrow_book.specs.Refused.{IsRefusal};
ghost use Rattle.escrow_book.specs.PartRows.{part_of};
ghost use Rattle.ledger_rows.specs.ActChanges.{act_changes, payment_changes, escrow_changes, transfer_changes};
ghost use Rattle.ledger_rows.specs.LedgerTables.{hold_of};
ghost use Rattle.ledger_acts.specs.ByRows.{IsRefusedBy, cell_of_row, ActsByRows};
ghost use Rattle.ledger_acts.specs.Movements.{change_of, book_refusal, changes_of, TurnFits, naming, part_refusal, rows_refusal, moved_refusal, moved_part, movement_looks, movement_refusal, moving};

use crate::ledger_fault::LedgerFault;
use crate::movement::Movement;
use crate::part_rows::read_part;
use crate::place::{MOST_ACTS, Place};
use crate::signed::{Signed, put_act};
use dh_base::{Id, Name, NoMemory};
use escrow_book::{Book, BookFault, BookRow, PartFault};
use keeper_core::{Batch, Keeper, StoreFault};
use ledger_rows::keys::{free_key, hold_key, moves_key};
use ledger_rows::{DEAL_TAB, FREE_TAB, HOLD_TAB, Hold, MOVES_TAB, put_free, put_hold, put_moves};
use std::alloc::Global;

/// The fault that names a row.
fn bad_row(alloc: Global, row: &BookRow) -> Result<StoreFault, NoMemory>
    ensures { IfOk result (λ fault. LedgerFault.Store fault ≡ naming (Some row.now)) }
{
    let fault = match row {
        BookRow::Free { account, asset, .. } => {
            StoreFault::bad_row(FREE_TAB, &free_key(alloc, account, asset)?)
        }
        BookRow::Deal { deal, .. } => StoreFault::bad_row(DEAL_TAB, &deal.0),
        BookRow::Hold {
            deal,
            account,
            asset,
            ..
        } => StoreFault::bad_row(HOLD_TAB, &hold_key(alloc, deal, account, asset)?),
        BookRow::Moves { deal, account, .. } => {
            StoreFault::bad_row(MOVES_TAB, &moves_key(alloc, deal, account)?)
        }
    };
    Ok(fault)
}

/// The row at that place fits no part.
fn misfit(alloc: Global, rows: &[BookRow], place: u32) -> LedgerFault
    ensures { IsRefusedBy (Some (naming (slice_get rows.now place))) result }
{
    let Some(row) = rows.get(place as usize) else {
        return LedgerFault::from(NoMemory);
    };
    match bad_row(alloc, row) {
        Ok(fault) => LedgerFault::from(fault),
        Err(fault) => LedgerFault::from(fault),
    }
}

/// Why the rows make no part.
fn refused_part(alloc: Global, rows: &[BookRow], fault: PartFault) -> LedgerFault
    ensures { IsRefusedBy (Some (part_refusal rows.now fault)) result }
{
    match fault {
        PartFault::NoMemory => LedgerFault::from(NoMemory),
        PartFault::BadRows { row } => misfit(alloc, rows, row),
        PartFault::SumTooLarge { row } => misfit(alloc, rows, row),
    }
}

/// The part of the book that the rows make.
fn part_for(alloc: Global, rows: &[BookRow]) -> Result<Book, LedgerFault>
    ensures part { MatchResult result
        (λ book. (rows_refusal rows.now ≡ None) × (book ≡ part_of rows.now))
        (IsRefusedBy (rows_refusal rows.now)) }
    ensures grown { IfOk result (λ book. IsGrown book) }
{
    match Book::part(alloc, rows) {
        Ok(book) => Ok(book),
        Err(fault) => Err(refused_part(alloc, rows, fault)),
    }
}

/// Makes the movement in a book.
fn make(book: &mut Book, movement: &Movement) -> Result<(), BookFault>
    requires { TurnFits book.old movement.now }
    ensures ok { OnOk result ((book_refusal book.old movement.now ≡ None)
        × (book.new ≡ with_change book.old (change_of movement.now))) }
    ensures refused { IfErr result (λ fault.
        IsRefusal fault (book_refusal book.old movement.now)) }
{
    match movement {
        Movement::Payment {
            from,
            to,
            asset,
            amount,
        } => book.pay(from, to, asset, *amount),
        Movement::Escrow {
            deal,
            party,
            asset,
            amount,
        } => book.escrow(deal, party, asset, *amount),
        Movement::Transfer {
            deal,
            from,
            turn,
            to,
            asset,
            amount,
        } => book.transfer(deal, from, *turn, to, asset, *amount),
    }
}

/// The part of the rows with the movement.
fn moved_part(alloc: Global, rows: &[BookRow], movement: &Movement) -> Result<Book, LedgerFault>
    ensures { MatchResult result
        (λ book. (moved_refusal movement.now rows.now ≡ None)
        × (book ≡ moved_part movement.now rows.now))
        (IsRefusedBy (moved_refusal movement.now rows.now)) }
{
    let mut book = part_for(alloc, rows)?;
    match make(&mut book, movement) {
        Ok(()) => Ok(book),
        Err(fault) => Err(LedgerFault::from(fault)),
    }
}

/// What a party owns of an asset in a deal.
fn hold_of(book: &Book, deal: &Id, party: &Id, asset: &Name) -> Hold
    ensures { result ≡ hold_of book.now deal.now party.now asset.now }
{
    Hold {
        commit: book.if_commit(deal, party, asset),
        abort: book.if_abort(deal, party, asset),
    }
}

fn put_payment(
    alloc: Global,
    batch: &mut Batch,
    book: &Book,
    from: &Id,
    to: &Id,
    asset: &Name,
) -> Result<(), NoMemory>
    ensures { OnOk result (batch.new ≡ batch.old
        ++ payment_changes from.now to.now asset.now (free_of book.now from.now asset.now)
        (free_of book.now to.now asset.now) []) }
{
    put_free(alloc, batch, from, asset, book.free(from, asset))?;
    put_free(alloc, batch, to, asset, book.free(to, asset))?;
    Ok(())
}

fn put_escrow(
    alloc: Global,
    batch: &mut Batch,
    book: &Book,
    deal: &Id,
    party: &Id,
    asset: &Name,
) -> Result<(), NoMemory>
    ensures { OnOk result (batch.new ≡ batch.old
        ++ escrow_changes deal.now party.now asset.now (free_of book.now party.now asset.now)
        (hold_of book.now deal.now party.now asset.now) []) }
{
    let own = hold_of(book, deal, party, asset);
    put_free(alloc, batch, party, asset, book.free(party, asset))?;
    put_hold(alloc, batch, deal, party, asset, &own)?;
    Ok(())
}

fn put_transfer(
    alloc: Global,
    batch: &mut Batch,
    book: &Book,
    deal: &Id,
    from: &Id,
    to: &Id,
    asset: &Name,
) -> Result<(), NoMemory>
    ensures { OnOk result (batch.new ≡ batch.old
        ++ transfer_changes deal.now from.now to.now asset.now
        (moves_of book.now deal.now from.now) (hold_of book.now deal.now from.now asset.now)
        (hold_of book.now deal.now to.now asset.now) []) }
{
    let sender = hold_of(book, deal, from, asset);
    let receiver = hold_of(book, deal, to, asset);
    put_moves(alloc, batch, deal, from, book.moves(deal, from))?;
    put_hold(alloc, batch, deal, from, asset, &sender)?;
    put_hold(alloc, batch, deal, to, asset, &receiver)?;
    Ok(())
}

/// The changes of the rows, where the book is the one behind the movement.
fn put_changes(
    alloc: Global,
    batch: &mut Batch,
    book: &Book,
    movement: &Movement,
) -> Result<(), NoMemory>
    ensures { OnOk result (batch.new ≡ batch.old ++ changes_of book.now movement.now []) }
{
    match movement {
        Movement::Payment {
            from,
            to,
            asset,
            ..
        } => put_payment(alloc, batch, book, from, to, asset),
        Movement::Escrow {
            deal,
            party,
            asset,
            ..
        } => put_escrow(alloc, batch, book, deal, party, asset),
        Movement::Transfer {
            deal,
            from,
            to,
            asset,
            ..
        } => put_transfer(alloc, batch, book, deal, from, to, asset),
    }
}

/// The changes of the movement and of its act, which is the entry of that number.
fn batch_for(
    alloc: Global,
    book: &Book,
    movement: &Movement,
    number: u64,
    signed: &Signed<'_>,
) -> Result<Batch, NoMemory>
    ensures { IfOk result (λ batch. batch ≡ changes_of book.now movement.now
        (act_changes number signed.now.account signed.now.q signed.now.message.now)) }
{
    let mut batch = Batch::new(alloc);
    put_changes(alloc, &mut batch, book, movement)?;
    put_act(alloc, &mut batch, number, signed)?;
    Ok(batch)
}

/// The changes of the movement, if the rows let it be made.
fn changes_for(
    alloc: Global,
    rows: &[BookRow],
    movement: &Movement,
    place: &Place,
    signed: &Signed<'_>,
) -> Result<Batch, LedgerFault>
    ensures { let act = act_changes place.now.number signed.now.account signed.now.q
        signed.now.message.now in
        MatchResult result
        (λ batch. (movement_refusal movement.now place.now.acts rows.now ≡ None)
        × (batch ≡ changes_of (moved_part movement.now rows.now) movement.now act))
        (IsRefusedBy (movement_refusal movement.now place.now.acts rows.now)) }
{
    let book = moved_part(alloc, rows, movement)?;
    if MOST_ACTS <= place.acts {
        return Err(LedgerFault::LedgerFull { acts: MOST_ACTS });
    }
    Ok(batch_for(alloc, &book, movement, place.number, signed)?)
}

/// Makes a movement, on a ledger whose next entry stands at that place.
pub(crate) fn make_movement<K: Keeper>(
    alloc: Global,
    keeper: &mut K,
    place: &Place,
    signed: &Signed<'_>,
    movement: &Movement,
) -> Result<(), LedgerFault>
    ensures { ActsByRows (movement_looks movement.now) None
        (moving movement.now place.now.acts
        (act_changes place.now.number signed.now.account signed.now.q signed.now.message.now))
        result (K.known keeper.old) (K.known keeper.new) }
{
    let rows = read_part(alloc, keeper, movement)?;
    let batch = changes_for(alloc, rows.as_slice(), movement, place, signed)?;
    Ok(keeper.commit(&batch)?)
}
