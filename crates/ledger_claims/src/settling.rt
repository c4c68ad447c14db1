//! A settlement, by the rows that it reads.

ghost use Rattle.std.specs.Prelude.{◌≡◌, ◌++◌, [], IfOk, OnOk, MatchResult, Some, None};
ghost use Rattle.std.specs.List.{slice_get};
ghost use Rattle.escrow_book.specs.declared.change.Change.TheVariants.{Settled};
ghost use Rattle.escrow_book.specs.History.{with_change};
ghost use Rattle.escrow_book.specs.Refused.{settle_refusal};
ghost use Rattle.escrow_book.specs.PartRows.{part_of};
ghost use Rattle.ledger_claims.specs.Payees.{IsRowFault};
ghost use Rattle.ledger_claims.specs.Settling.{payee_rows, part_rows, naming, misfit_of, part_refusal, settled_part, payout_changes, ending_changes, settling_changes, SettlesByRows};

use crate::payees::{Payee, payees_of};
use deal_core::parties_in;
use dh_base::{Id, NoMemory, Outcome};
use escrow_book::{Book, BookFault, BookRow, PartFault};
use keeper_core::{Batch, Keeper, StoreFault};
use ledger_rows::keys::{free_key, hold_key, moves_key};
use ledger_rows::{
    DEAL_TAB, Entry, FREE_TAB, HOLD_TAB, MOVES_TAB, Registration, put_entry, put_free,
    put_registration,
};
use std::alloc::Global;

/// Adds what each owner can spend, and what it owns.
fn put_payees(rows: &mut Vec<BookRow>, payees: &[Payee]) -> Result<(), NoMemory>
    ensures { OnOk result (rows.new.items ≡ rows.old.items ++ payee_rows payees.now) }
{
    for payee in payees {
        let hold = payee.hold;
        rows.push(BookRow::Free {
            account: hold.account,
            asset: hold.asset,
            amount: payee.free,
        })?;
        rows.push(BookRow::Hold {
            deal: hold.deal,
            account: hold.account,
            asset: hold.asset,
            commit: hold.commit,
            abort: hold.abort,
        })?;
    }
    Ok(())
}

/// The rows of the deal's part.
fn part_rows(
    alloc: Global,
    deal: &Id,
    text: &[u8],
    payees: &[Payee],
) -> Result<Vec<BookRow>, NoMemory>
    ensures { IfOk result (λ rows. rows.items ≡ part_rows deal.now text.now payees.now) }
{
    let mut rows = Vec::new(alloc);
    rows.push(BookRow::Deal {
        deal: *deal,
        parties: parties_in(alloc, text)?,
        settled: None,
    })?;
    put_payees(&mut rows, payees)?;
    Ok(rows)
}

/// The fault that names a row.
fn bad_row(alloc: Global, row: &BookRow) -> Result<StoreFault, NoMemory>
    ensures { IfOk result (λ fault. fault ≡ naming (Some row.now)) }
{
    let fault = match row {
        BookRow::Free { account, asset, .. } => {
            StoreFault::bad_row(FREE_TAB, &free_key(alloc, account, asset)?)
        }
        BookRow::Deal { deal, .. } => StoreFault::bad_row(DEAL_TAB, &deal.0),
        BookRow::Hold {
            deal,
            account,
            asset,
            ..
        } => StoreFault::bad_row(HOLD_TAB, &hold_key(alloc, deal, account, asset)?),
        BookRow::Moves { deal, account, .. } => {
            StoreFault::bad_row(MOVES_TAB, &moves_key(alloc, deal, account)?)
        }
    };
    Ok(fault)
}

/// The row at that place fits no part.
fn misfit(alloc: Global, rows: &[BookRow], place: u32) -> StoreFault
    ensures { IsRowFault (Some (naming (slice_get rows.now place))) result }
{
    let Some(row) = rows.get(place as usize) else {
        return StoreFault::NoMemory;
    };
    match bad_row(alloc, row) {
        Ok(fault) => fault,
        Err(_) => StoreFault::NoMemory,
    }
}

/// Why the rows make no part.
fn refused_part(alloc: Global, rows: &[BookRow], fault: PartFault) -> StoreFault
    ensures { IsRowFault (Some (misfit_of rows.now fault)) result }
{
    match fault {
        PartFault::NoMemory => StoreFault::NoMemory,
        PartFault::BadRows { row } => misfit(alloc, rows, row),
        PartFault::SumTooLarge { row } => misfit(alloc, rows, row),
    }
}

/// The part of the book that the rows make.
fn part_for(alloc: Global, rows: &[BookRow]) -> Result<Book, StoreFault>
    ensures { MatchResult result
        (λ book. (part_refusal rows.now ≡ None) × (book ≡ part_of rows.now))
        (IsRowFault (part_refusal rows.now)) }
{
    match Book::part(alloc, rows) {
        Ok(book) => Ok(book),
        Err(fault) => Err(refused_part(alloc, rows, fault)),
    }
}

/// Ends a deal in a book that has it open.
fn end_in(book: &mut Book, deal: &Id, outcome: Outcome) -> Result<(), NoMemory>
    requires { settle_refusal book.old deal.now ≡ None }
    ensures { OnOk result (book.new ≡ with_change book.old (Settled deal.now outcome)) }
{
    match book.settle(deal, outcome) {
        Ok(()) => Ok(()),
        Err(BookFault::NoMemory) => Err(NoMemory),
        Err(_) => unreachable!(),
    }
}

/// The part of the deal, once it has ended so.
fn settled_part(
    alloc: Global,
    deal: &Id,
    text: &[u8],
    payees: &[Payee],
    outcome: Outcome,
) -> Result<Book, StoreFault>
    ensures { let rows = part_rows deal.now text.now payees.now in
        MatchResult result
        (λ book. (part_refusal rows ≡ None) × (book ≡ settled_part deal.now outcome rows))
        (IsRowFault (part_refusal rows)) }
{
    let rows = part_rows(alloc, deal, text, payees)?;
    let mut book = part_for(alloc, &rows)?;
    end_in(&mut book, deal, outcome)?;
    Ok(book)
}

/// Adds what each owner can spend by the book.
fn put_payouts(
    alloc: Global,
    batch: &mut Batch,
    book: &Book,
    payees: &[Payee],
) -> Result<(), NoMemory>
    ensures { OnOk result (batch.new ≡ batch.old ++ payout_changes book.now payees.now) }
{
    for payee in payees {
        let hold = payee.hold;
        let free = book.free(&hold.account, &hold.asset);
        put_free(alloc, batch, &hold.account, &hold.asset, free)?;
    }
    Ok(())
}

/// The changes of a settlement that is the entry of that number, by the book behind it.
fn batch_for(
    alloc: Global,
    number: u64,
    deal: &Id,
    found: Registration,
    outcome: Outcome,
    book: &Book,
    payees: &[Payee],
) -> Result<Batch, NoMemory>
    ensures { IfOk result (λ batch. batch
        ≡ ending_changes number deal.now found outcome book.now payees.now) }
{
    let mut batch = Batch::new(alloc);
    let mut ended = found;
    ended.settled = Some(outcome);
    put_registration(alloc, &mut batch, deal, &ended)?;
    let entry = Entry::Settlement {
        deal: *deal,
        outcome,
    };
    put_entry(alloc, &mut batch, number, &entry)?;
    put_payouts(alloc, &mut batch, book, payees)?;
    Ok(batch)
}

/// The changes of the settlement, if the rows let it be made.
fn changes_for(
    alloc: Global,
    number: u64,
    deal: &Id,
    found: Registration,
    outcome: Outcome,
    payees: &[Payee],
) -> Result<Batch, StoreFault>
    ensures { let refusal = part_refusal (part_rows deal.now found.text payees.now) in
        MatchResult result
        (λ batch. (refusal ≡ None)
        × (batch ≡ settling_changes number deal.now found outcome payees.now))
        (IsRowFault refusal) }
{
    let book = settled_part(alloc, deal, found.text.as_slice(), payees, outcome)?;
    Ok(batch_for(alloc, number, deal, found, outcome, &book, payees)?)
}

/// Settles a deal that is registered so and hasn't ended. The settlement is the entry of that
/// number.
pub(crate) fn settle<K: Keeper>(
    alloc: Global,
    keeper: &mut K,
    number: u64,
    deal: &Id,
    found: Registration,
    outcome: Outcome,
) -> Result<(), StoreFault>
    ensures { SettlesByRows number deal.now found outcome result
        (K.known keeper.old) (K.known keeper.new) }
{
    let payees = payees_of(alloc, keeper, deal)?;
    let batch = changes_for(alloc, number, deal, found, outcome, payees.as_slice())?;
    Ok(keeper.commit(&batch)?)
}
