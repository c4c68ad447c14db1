//! Statements that were heard.

ghost use Rattle.std.specs.Prelude.{◌≡◌, ◌<◌, List, length, IfSome, OnOk, OnErr};
ghost use Rattle.std.specs.List.{position_from};
ghost use Rattle.std.specs.Option.{option_copied};
ghost use Rattle.joined_deals.specs.Heard.{is_about, kept_of, with_heard, listed_of, tells_settled, is_settled_in};

use act_text::{HeldRow, Statement};
use dh_base::{Id, Name, NoMemory};

/// Whether the statement is on that deal and of that ledger.
fn is_about(statement: &Statement, deal: &Id, ledger: &Name) -> bool
    ensures { result ≡ is_about deal.now ledger.now statement.now }
{
    *deal == statement.deal && *ledger == statement.ledger
}

/// The kept statement of that deal and ledger.
pub fn kept_of<'a>(heard: &'a [Statement], deal: &Id, ledger: &Name) -> Option<&'a Statement>
    ensures { option_copied result ≡ kept_of heard.now deal.now ledger.now }
{
    for statement in heard {
        if is_about(statement, deal, ledger) {
            return Some(statement);
        }
    }
    None
}

/// Where the kept statement of that deal and ledger stands.
fn place_of(heard: &[Statement], deal: &Id, ledger: &Name) -> Option<usize>
    ensures position { result ≡ position_from (is_about deal.now ledger.now) 0 heard.now }
    ensures within { IfSome result (λ place. place < length heard.now) }
{
    for (place, statement) in heard.iter().enumerate() {
        if is_about(statement, deal, ledger) {
            return Some(place);
        }
    }
    None
}

/// Keeps the statement, in place of the one of its deal and ledger.
pub fn keep(heard: &mut Vec<Statement>, statement: Statement) -> Result<(), NoMemory>
    ensures kept { OnOk result (heard.new.items ≡ with_heard heard.old.items statement) }
    ensures unchanged { OnErr result (heard.new.items ≡ heard.old.items) }
{
    if let Some(place) = place_of(heard, &statement.deal, &statement.ledger) {
        heard[place] = statement;
        return Ok(());
    }
    heard.push(statement)?;
    Ok(())
}

/// Whether a kept statement of the deal tells that it is settled.
pub fn is_settled_in(heard: &[Statement], deal: &Id) -> bool
    ensures { result ≡ is_settled_in heard.now deal.now }
{
    heard.iter().any(|statement| *deal == statement.deal && statement.settled.is_some())
}

/// What the first row that names the asset lists, and 0 where none does.
pub fn listed_of(rows: &[HeldRow], asset: &Name) -> u64
    ensures { result ≡ listed_of rows.now asset.now }
{
    for row in rows {
        if *asset == row.asset {
            return row.amount;
        }
    }
    0
}
