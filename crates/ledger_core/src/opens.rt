//! Opening a ledger over the tables of its keeper.

ghost use Rattle.std.specs.Prelude.{◌≡◌, ◌+◌, ◌<◌, ◌++◌, [], ◌∷◌, is_some, Some, None, IfOk, IfErr, OnOk, length};
ghost use Rattle.std.specs.FinMap.{get};
ghost use Rattle.std.specs.Result.{IsErr};
ghost use Rattle.keeper_core.specs.Knowing.{FailsNext};
ghost use Rattle.keeper_core.specs.Leaving.{Leaves, ended, of_store_fault};
ghost use Rattle.keeper_core.specs.StoreFaults.{HasCause};
ghost use Rattle.ledger_rows.specs.Asking.{Asks};
ghost use Rattle.ledger_rows.specs.RowKeys.{entry_tab, entry_key};
ghost use Rattle.ledger_rows.specs.RowReading.{LacksForm};
ghost use Rattle.ledger_core.specs.OpenFaults.{of_open_fault};
ghost use Rattle.ledger_core.specs.Opens.{most_entries, CountsEntries, AreCounts, deals_refusal, counting_looks, opening_changes, begin_changes, no_counts, kept_refusal, OpensGood, OpensByRows, OpensKept, OpensEmpty, IsStoreOnly, OpenCause};
ghost use Rattle.ledger_core.specs.Openings.{AreSpelled, book_rows, opened_by};

use crate::asking::wide;
use crate::form_row::{FORM_KEY, FORM_TAB, FormRow};
use crate::open_fault::OpenFault;
use crate::opening::{OpenRow, Opening, book_rows};
use dh_base::{Id, Name, NoMemory, put_id, put_u8};
use escrow_book::first_bad_row;
use keeper_core::{Batch, Keeper, StoreFault};
use ledger_rows::keys::entry_key;
use ledger_rows::{ENTRY_TAB, count_settled, put_free, read_row};
use std::alloc::Global;

/// Every history has fewer entries.
const MOST_ENTRIES: u64 = 2_097_152;

/// How many entries a history has, and how many of them are acts.
#[derive(Clone, Copy)]
pub(crate) struct Counts {
    pub(crate) entries: u64,
    pub(crate) acts: u32,
}

/// Whether there is an entry of that number.
fn has_entry<K: Keeper>(keeper: &mut K, number: u64) -> Result<bool, StoreFault>
    ensures asks { Asks of_store_fault (λ tables. 1) (λ tables. None)
        (λ tables is. is ≡ is_some (get tables (entry_tab, entry_key number))) result
        (K.known keeper.old) (K.known keeper.new) }
    ensures cause { IfErr result (HasCause LacksForm (K.known keeper.new).tables) }
{
    let row = keeper.get(ENTRY_TAB, &entry_key(number))?;
    Ok(row.is_some())
}

/// How many entries there are, found by halving.
fn count_entries<K: Keeper>(keeper: &mut K) -> Result<u64, StoreFault>
    ensures asks { Asks of_store_fault (λ tables. 21) (λ tables. None)
        (λ tables count. CountsEntries count tables) result
        (K.known keeper.old) (K.known keeper.new) }
    ensures few { IfOk result (λ count. count < most_entries) }
    ensures cause { IfErr result (HasCause LacksForm (K.known keeper.new).tables) }
{
    let mut count: u64 = 0;
    let mut width: u64 = MOST_ENTRIES;
    for round in 0..21u32 {
        width /= 2;
        if has_entry(keeper, count + width)? {
            count += width;
        }
    }
    Ok(count)
}

/// How many entries and acts there are.
fn count_all<K: Keeper>(keeper: &mut K) -> Result<Counts, StoreFault>
    ensures asks { Asks of_store_fault counting_looks deals_refusal AreCounts result
        (K.known keeper.old) (K.known keeper.new) }
    ensures cause { IfErr result (HasCause LacksForm (K.known keeper.new).tables) }
{
    let entries = count_entries(keeper)?;
    let settled = count_settled(keeper)?;
    let acts = entries.saturating_sub(settled as u64);
    Ok(Counts {
        entries,
        acts: acts as u32,
    })
}

fn put_opening(alloc: Global, batch: &mut Batch, rows: &[(Id, Name, u64)]) -> Result<(), NoMemory>
    ensures { OnOk result (batch.new ≡ batch.old ++ opening_changes rows.now) }
{
    for row in rows {
        put_free(alloc, batch, &row.0, &row.1, row.2)?;
    }
    Ok(())
}

fn form_text(alloc: Global, identity: &Id) -> Result<Vec<u8>, NoMemory>
    ensures { IfOk result (λ text. text.items ≡ 1 ∷ 1 ∷ identity.now.0) }
{
    let mut text = Vec::new(alloc);
    put_u8(&mut text, 1)?;
    put_u8(&mut text, 1)?;
    put_id(&mut text, identity)?;
    Ok(text)
}

/// What is committed on empty tables.
fn begin_batch(alloc: Global, identity: &Id, rows: &[(Id, Name, u64)]) -> Result<Batch, NoMemory>
    ensures { IfOk result (λ batch. batch ≡ begin_changes identity.now rows.now) }
{
    let mut batch = Batch::new(alloc);
    batch.put(FORM_TAB, FORM_KEY, &form_text(alloc, identity)?)?;
    put_opening(alloc, &mut batch, rows)?;
    Ok(batch)
}

/// Fills empty tables.
fn begin<K: Keeper>(
    alloc: Global,
    keeper: &mut K,
    identity: &Id,
    rows: &[(Id, Name, u64)],
) -> Result<Counts, OpenFault>
    ensures leaves { Leaves (begin_changes identity.now rows.now ∷ [])
        (ended of_open_fault result) (K.known keeper.old) (K.known keeper.new) }
    ensures none { IfOk result (λ counts. counts ≡ no_counts) }
    ensures store { IfErr result IsStoreOnly }
    ensures looked { (K.known keeper.new).looked ≡ (K.known keeper.old).looked }
{
    let batch = begin_batch(alloc, identity, rows)?;
    keeper.commit(&batch)?;
    Ok(Counts {
        entries: 0,
        acts: 0,
    })
}

/// The counts of tables that name that identity.
fn count_kept<K: Keeper>(keeper: &mut K, kept: &FormRow, identity: &Id) -> Result<Counts, OpenFault>
    ensures asks { Asks of_open_fault counting_looks
        (λ tables. kept_refusal identity.now tables (Some (Some kept.now))) AreCounts result
        (K.known keeper.old) (K.known keeper.new) }
    ensures cause { IfErr result (OpenCause (K.known keeper.new).tables) }
{
    if kept.identity != *identity {
        return Err(OpenFault::OtherOpening {
            kept: kept.identity,
        });
    }
    Ok(count_all(keeper)?)
}

/// Opens by the tables, where the rows of the opening are good.
fn open_good<K: Keeper>(
    alloc: Global,
    keeper: &mut K,
    identity: &Id,
    rows: &[(Id, Name, u64)],
) -> Result<Counts, OpenFault>
    ensures rows { OpensGood identity.now rows.now result
        (K.known keeper.old) (K.known keeper.new) }
    ensures cause { IfErr result (OpenCause (K.known keeper.new).tables) }
    ensures fails { FailsNext (K.known keeper.old) → IsErr result }
{
    let kept: Option<FormRow> = read_row(alloc, keeper, FORM_TAB, FORM_KEY)?;
    match kept {
        None => begin(alloc, keeper, identity, rows),
        Some(form) => count_kept(keeper, &form, identity),
    }
}

/// Opens a ledger by the tables.
pub(crate) fn open_by_rows<K: Keeper>(
    alloc: Global,
    keeper: &mut K,
    opening: &Opening,
) -> Result<Counts, OpenFault>
    ensures rows { OpensByRows (opened_by opening.now) result
        (K.known keeper.old) (K.known keeper.new) }
    ensures cause { IfErr result (OpenCause (K.known keeper.new).tables) }
    ensures fails { FailsNext (K.known keeper.old) → IsErr result }
{
    let rows = book_rows(alloc, opening.rows.as_slice())?;
    if let Some(row) = first_bad_row(&rows) {
        return Err(OpenFault::BadOpening { row });
    }
    let identity = opening.identity(alloc)?;
    open_good(alloc, keeper, &identity, &rows)
}

/// Accounts have 32 bytes, and assets are names.
fn all_spelled(rows: &[OpenRow])
    ensures { AreSpelled (book_rows rows.now) }
{
    match rows.split_first() {
        None => {}
        Some((first, rest)) => {
            wide(&first.account);
            let _text = first.asset.as_bytes();
            all_spelled(rest)
        }
    }
}

/// Opens a ledger over the tables of its keeper.
pub(crate) fn open_over<K: Keeper>(
    alloc: Global,
    keeper: &mut K,
    opening: &Opening,
) -> Result<Counts, OpenFault>
    ensures rows { OpensByRows (opened_by opening.now) result
        (K.known keeper.old) (K.known keeper.new) }
    ensures kept { OpensKept (opened_by opening.now) result
        (K.known keeper.old) (K.known keeper.new) }
    ensures empty { OpensEmpty (opened_by opening.now) result
        (K.known keeper.old) (K.known keeper.new) }
    ensures cause { IfErr result (OpenCause (K.known keeper.new).tables) }
    ensures fails { FailsNext (K.known keeper.old) → IsErr result }
{
    all_spelled(opening.rows.as_slice());
    open_by_rows(alloc, keeper, opening)
}
