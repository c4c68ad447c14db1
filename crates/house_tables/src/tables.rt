//! All tables of a ledger.

ghost use Rattle.std.specs.Prelude.{◌≡◌, IfOk, None, false};
ghost use Rattle.keeper_core.specs.Tables.{rows_of};
ghost use Rattle.house_tables.specs.Tables.{tables_text, rows_text, ledger_text};

use crate::line::{Line, append_all, in_order};
use crate::printing::{deal_texts, free_lines};
use crate::rows::{deal_rows, free_rows, hold_rows};
use dh_base::{List, Name, NoMemory};
use holder_names::Directory;
use keeper_core::{Keeper, MemKeeper, Row};
use ledger_rows::{DEAL_TAB, FREE_TAB, HOLD_TAB};
use std::alloc::Global;

/// The tables of these rows: free amounts, deals and holds.
fn rows_text(
    alloc: Global,
    directory: &Directory,
    name: &Name,
    free: &[Row],
    deals: &[Row],
    holds: &[Row],
) -> Result<Line, NoMemory>
    ensures { IfOk result (λ text. text
        ≡ rows_text directory.now name.now free.now deals.now holds.now) }
{
    let free = free_rows(alloc, free)?;
    let holds = hold_rows(alloc, holds)?;
    let deals = deal_rows(alloc, deals)?;
    let spendable = in_order(alloc, free_lines(alloc, directory, &free)?)?;
    let texts = in_order(alloc, deal_texts(alloc, directory, &holds, &deals)?)?;
    let mut text = format!(in alloc; "ledger {name}\n")?;
    append_all(&spendable, &mut text)?;
    append_all(&texts, &mut text)?;
    Ok(Line::new(text))
}

/// The rows of a table of a keeper that runs.
fn rows_in(keeper: &mut MemKeeper, tab: u8) -> Result<List<Row>, NoMemory>
    requires runs { keeper.old.stopped ≡ false }
    requires unarmed { keeper.old.armed ≡ None }
    ensures rows { IfOk result (λ rows. rows ≡ rows_of tab keeper.old.tables) }
    ensures tables { keeper.new.tables ≡ keeper.old.tables }
    ensures runs { keeper.new.stopped ≡ false }
    ensures unarmed { keeper.new.armed ≡ None }
{
    match keeper.scan(tab) {
        Ok(rows) => Ok(rows),
        Err(_) => Err(NoMemory),
    }
}

/// The tables of a keeper that runs.
fn tables_text(
    alloc: Global,
    directory: &Directory,
    name: &Name,
    keeper: &mut MemKeeper,
) -> Result<Line, NoMemory>
    requires runs { keeper.old.stopped ≡ false }
    requires unarmed { keeper.old.armed ≡ None }
    ensures { IfOk result (λ text. text
        ≡ tables_text directory.now name.now keeper.old.tables) }
{
    let free = rows_in(keeper, FREE_TAB)?;
    let deals = rows_in(keeper, DEAL_TAB)?;
    let holds = rows_in(keeper, HOLD_TAB)?;
    rows_text(
        alloc,
        directory,
        name,
        free.as_slice(),
        deals.as_slice(),
        holds.as_slice(),
    )
}

/// The final tables of the ledger that has this keeper: what is free on it, and each deal that is
/// registered there. Of a ledger whose keeper has stopped only that is told.
pub fn ledger_tables(
    alloc: Global,
    directory: &Directory,
    name: &Name,
    keeper: MemKeeper,
) -> Result<Line, NoMemory>
    ensures { IfOk result (λ text. text ≡ ledger_text directory.now name.now keeper) }
{
    if keeper.has_stopped() {
        return Ok(Line::new(format!(in alloc; "ledger {name} stopped\n")?));
    }
    let mut keeper = keeper;
    keeper.restart();
    tables_text(alloc, directory, name, &mut keeper)
}
