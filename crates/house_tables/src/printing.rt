//! What is printed for the rows of a ledger's keeper.

ghost use Rattle.std.specs.Prelude.{◌≡◌, IfOk, map, string_bytes};
ghost use Rattle.std.specs.List.{filter_map};
ghost use Rattle.house_tables.specs.Printing.{
  free_line,
  hold_line,
  paid_line,
  deal_head,
  party_line,
  party_line_in,
  deal_text,
};

use crate::line::{Line, append_all, in_order};
use crate::rows::{DealRow, FreeRow, HoldRow};
use dh_base::{NoMemory, Outcome};
use holder_names::Directory;
use std::alloc::Global;

/// What an account can spend of an asset.
fn free_line(alloc: Global, directory: &Directory, row: &FreeRow) -> Result<Line, NoMemory>
    ensures { IfOk result (λ line. line ≡ free_line directory.now row.now) }
{
    let asset = row.asset;
    let account = directory.label(&row.account);
    let amount = row.amount;
    Ok(Line::new(format!(in alloc; "free {asset} {account} {amount}\n")?))
}

/// What a party owns of an asset in an open deal.
fn hold_line(alloc: Global, directory: &Directory, row: &HoldRow) -> Result<Line, NoMemory>
    ensures { IfOk result (λ line. line ≡ hold_line directory.now row.now) }
{
    let deal = directory.label(&row.deal);
    let asset = row.asset;
    let account = directory.label(&row.account);
    let commit = row.commit;
    let abort = row.abort;
    Ok(Line::new(format!(in alloc; "hold {deal} {asset} {account} {commit} {abort}\n")?))
}

/// What a party was paid of an asset by a deal, if it was anything.
fn paid_line(
    alloc: Global,
    directory: &Directory,
    row: &HoldRow,
    amount: u64,
) -> Result<Option<Line>, NoMemory>
    ensures { IfOk result (λ line. line ≡ paid_line directory.now row.now amount) }
{
    if amount == 0 {
        return Ok(None);
    }
    let deal = directory.label(&row.deal);
    let asset = row.asset;
    let account = directory.label(&row.account);
    Ok(Some(Line::new(format!(in alloc; "paid {deal} {asset} {account} {amount}\n")?)))
}

/// What a party owns, or was paid, where the deal has ended so.
fn party_line(
    alloc: Global,
    directory: &Directory,
    settled: Option<Outcome>,
    row: &HoldRow,
) -> Result<Option<Line>, NoMemory>
    ensures { IfOk result (λ line. line ≡ party_line directory.now settled row.now) }
{
    match settled {
        None => Ok(Some(hold_line(alloc, directory, row)?)),
        Some(Outcome::Commit) => paid_line(alloc, directory, row, row.commit),
        Some(Outcome::Abort) => paid_line(alloc, directory, row, row.abort),
    }
}

/// The same, where the row is of the deal.
fn party_line_in(
    alloc: Global,
    directory: &Directory,
    deal: &DealRow,
    row: &HoldRow,
) -> Result<Option<Line>, NoMemory>
    ensures { IfOk result (λ line. line ≡ party_line_in directory.now deal.now row.now) }
{
    if deal.deal == row.deal {
        party_line(alloc, directory, deal.settled, row)
    } else {
        Ok(None)
    }
}

/// The lines of all parties of the deal.
fn party_lines(
    alloc: Global,
    directory: &Directory,
    deal: &DealRow,
    holds: &[HoldRow],
) -> Result<Vec<Line>, NoMemory>
    ensures { IfOk result (λ lines. lines.items
        ≡ filter_map (party_line_in directory.now deal.now) holds.now) }
{
    let mut lines = Vec::new(alloc);
    for row in holds {
        if let Some(line) = party_line_in(alloc, directory, deal, row)? {
            lines.push(line)?;
        }
    }
    Ok(lines)
}

/// How the deal stands.
fn deal_head(alloc: Global, directory: &Directory, row: &DealRow) -> Result<String, NoMemory>
    ensures { IfOk result (λ text. string_bytes text ≡ deal_head directory.now row.now) }
{
    let deal = directory.label(&row.deal);
    match row.settled {
        None => Ok(format!(in alloc; "deal {deal} open\n")?),
        Some(outcome) => Ok(format!(in alloc; "deal {deal} {outcome}\n")?),
    }
}

/// How the deal stands, and the lines of its parties in their order.
fn deal_text(
    alloc: Global,
    directory: &Directory,
    holds: &[HoldRow],
    deal: &DealRow,
) -> Result<Line, NoMemory>
    ensures { IfOk result (λ text. text ≡ deal_text directory.now holds.now deal.now) }
{
    let lines = party_lines(alloc, directory, deal, holds)?;
    let ordered = in_order(alloc, lines)?;
    let mut text = deal_head(alloc, directory, deal)?;
    append_all(&ordered, &mut text)?;
    Ok(Line::new(text))
}

/// The lines of free amounts.
pub(crate) fn free_lines(
    alloc: Global,
    directory: &Directory,
    rows: &[FreeRow],
) -> Result<Vec<Line>, NoMemory>
    ensures { IfOk result (λ lines. lines.items ≡ map (free_line directory.now) rows.now) }
{
    let mut lines = Vec::new(alloc);
    for row in rows {
        lines.push(free_line(alloc, directory, row)?)?;
    }
    Ok(lines)
}

/// The texts of all deals.
pub(crate) fn deal_texts(
    alloc: Global,
    directory: &Directory,
    holds: &[HoldRow],
    deals: &[DealRow],
) -> Result<Vec<Line>, NoMemory>
    ensures { IfOk result (λ lines. lines.items
        ≡ map (deal_text directory.now holds.now) deals.now) }
{
    let mut lines = Vec::new(alloc);
    for deal in deals {
        lines.push(deal_text(alloc, directory, holds, deal)?)?;
    }
    Ok(lines)
}
