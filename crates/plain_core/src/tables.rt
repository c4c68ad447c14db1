//! The final tables of a report.

ghost use Rattle.std.specs.Prelude.{◌≡◌, ◌++◌, map, IfOk, OnOk, string_bytes};
ghost use Rattle.std.specs.List.{find, flat_map};
ghost use Rattle.std.specs.Option.{option_copied};
ghost use Rattle.std.specs.Str.{bytes_eq};
ghost use Rattle.escrow_book.specs.History.{payout_of, settlement_of};
ghost use Rattle.plain_script.specs.Ids.{plain_id};
ghost use Rattle.plain_core.specs.Openings.{deal_names};
ghost use Rattle.plain_core.specs.Tables.{
  assets_of,
  free_row,
  hold_row,
  paid_row,
  row_text,
  rows_text,
  deal_lines,
  deal_text,
  ledger_text,
  named_text,
  tables_text,
};

use crate::ledger::Ledger;
use crate::order::{in_order, listed};
use crate::world::World;
use dh_base::{Id, Name, NoMemory, Outcome};
use escrow_book::Book;
use plain_script::{Declaration, Declarations, plain_id};
use std::alloc::Global;
use std::fmt::Write;

/// What the rows of a table tell.
#[derive(Clone, Copy)]
enum Rows {
    /// What each account can spend.
    Free,
    /// What each party owns in the open deal, by either outcome.
    Held { deal: Name },
    /// What each party was paid by the deal, which ended so.
    Paid { deal: Name, outcome: Outcome },
}

/// What the party is paid when the deal ends so.
fn payout(book: &Book, deal: &Id, outcome: Outcome, party: &Id, asset: &Name) -> u64
    ensures { result ≡ payout_of book.now deal.now outcome party.now asset.now }
{
    match outcome {
        Outcome::Commit => book.if_commit(deal, party, asset),
        Outcome::Abort => book.if_abort(deal, party, asset),
    }
}

fn write_free(asset: &Name, party: &Name, amount: u64, out: &mut String) -> Result<(), NoMemory>
    ensures { OnOk result (string_bytes out.new
        ≡ string_bytes out.old ++ free_row asset.now party.now amount) }
{
    if amount > 0 {
        write!(out, "free {asset} {party} {amount}\n")?;
    }
    Ok(())
}

fn write_hold(
    deal: &Name,
    asset: &Name,
    party: &Name,
    commit: u64,
    abort: u64,
    out: &mut String,
) -> Result<(), NoMemory>
    ensures { OnOk result (string_bytes out.new
        ≡ string_bytes out.old ++ hold_row deal.now asset.now party.now commit abort) }
{
    if commit > 0 || abort > 0 {
        write!(out, "hold {deal} {asset} {party} {commit} {abort}\n")?;
    }
    Ok(())
}

fn write_paid(
    deal: &Name,
    asset: &Name,
    party: &Name,
    amount: u64,
    out: &mut String,
) -> Result<(), NoMemory>
    ensures { OnOk result (string_bytes out.new
        ≡ string_bytes out.old ++ paid_row deal.now asset.now party.now amount) }
{
    if amount > 0 {
        write!(out, "paid {deal} {asset} {party} {amount}\n")?;
    }
    Ok(())
}

impl Rows {
    /// The row of the party for the asset, if it has one.
    fn write_row(
        &self,
        book: &Book,
        asset: &Name,
        party: &Name,
        out: &mut String,
    ) -> Result<(), NoMemory>
        ensures { OnOk result (string_bytes out.new
            ≡ string_bytes out.old ++ row_text self.now book.now asset.now party.now) }
    {
        let account = plain_id(party);
        match self {
            Rows::Free => write_free(asset, party, book.free(&account, asset), out),
            Rows::Held { deal } => {
                let id = plain_id(deal);
                let commit = book.if_commit(&id, &account, asset);
                let abort = book.if_abort(&id, &account, asset);
                write_hold(deal, asset, party, commit, abort, out)
            }
            Rows::Paid { deal, outcome } => {
                let amount = payout(book, &plain_id(deal), *outcome, &account, asset);
                write_paid(deal, asset, party, amount, out)
            }
        }
    }

    /// The rows of the parties for one asset.
    fn write_asset(
        &self,
        book: &Book,
        asset: &Name,
        parties: &[Name],
        out: &mut String,
    ) -> Result<(), NoMemory>
        ensures { OnOk result (string_bytes out.new
            ≡ string_bytes out.old ++ flat_map (row_text self.now book.now asset.now) parties.now) }
    {
        for party in parties {
            self.write_row(book, asset, party, out)?;
        }
        Ok(())
    }

    /// The rows of the parties for each asset.
    fn write_all(
        &self,
        book: &Book,
        assets: &[Name],
        parties: &[Name],
        out: &mut String,
    ) -> Result<(), NoMemory>
        ensures { OnOk result (string_bytes out.new
            ≡ string_bytes out.old ++ rows_text self.now book.now assets.now parties.now) }
    {
        for asset in assets {
            self.write_asset(book, asset, parties, out)?;
        }
        Ok(())
    }
}

/// A registered deal, with its parties in their order.
fn write_registered(
    book: &Book,
    assets: &[Name],
    deal: &Name,
    parties: &[Name],
    out: &mut String,
) -> Result<(), NoMemory>
    ensures { OnOk result (string_bytes out.new ≡ string_bytes out.old
        ++ deal_lines book.now assets.now deal.now parties.now
        (settlement_of book.now (plain_id deal.now))) }
{
    let deal = *deal;
    match book.settlement(&plain_id(&deal)) {
        None => {
            write!(out, "deal {deal} open\n")?;
            Rows::Held { deal }.write_all(book, assets, parties, out)
        }
        Some(outcome) => {
            write!(out, "deal {deal} {outcome}\n")?;
            Rows::Paid { deal, outcome }.write_all(book, assets, parties, out)
        }
    }
}

/// The deal, if it is registered on the ledger of the book.
fn write_deal(
    alloc: Global,
    declarations: &Declarations,
    book: &Book,
    assets: &[Name],
    deal: &Name,
    out: &mut String,
) -> Result<(), NoMemory>
    ensures { OnOk result (string_bytes out.new
        ≡ string_bytes out.old ++ deal_text declarations.now book.now assets.now deal.now) }
{
    if !book.is_registered(&plain_id(deal)) {
        return Ok(());
    }
    let parties = in_order(alloc, declarations.members(deal))?;
    write_registered(book, assets, deal, &parties, out)
}

/// The deals that are registered on the ledger of the book, among these.
fn write_deals(
    alloc: Global,
    declarations: &Declarations,
    book: &Book,
    assets: &[Name],
    deals: &[Name],
    out: &mut String,
) -> Result<(), NoMemory>
    ensures { OnOk result (string_bytes out.new
        ≡ string_bytes out.old
        ++ flat_map (deal_text declarations.now book.now assets.now) deals.now) }
{
    for deal in deals {
        write_deal(alloc, declarations, book, assets, deal, out)?;
    }
    Ok(())
}

/// The assets of the rows.
fn row_assets(alloc: Global, rows: &[(Id, Name, u64)]) -> Result<Vec<Name>, NoMemory>
    ensures { IfOk result (λ names. names.items ≡ map (λ row. row.1) rows.now) }
{
    let names: Vec<Name> = rows.iter().map(|row| row.1).collect(alloc)?;
    Ok(names)
}

/// The assets of the book's opening rows, in ascending order.
fn assets_of(alloc: Global, book: &Book) -> Result<Vec<Name>, NoMemory>
    ensures { IfOk result (λ assets. assets.items ≡ assets_of book.now) }
{
    in_order(alloc, &row_assets(alloc, book.opening_rows())?)
}

/// The names of the deals, in the order of their declarations.
fn deal_names(alloc: Global, declarations: &[Declaration]) -> Result<Vec<Name>, NoMemory>
    ensures { IfOk result (λ names. names.items ≡ deal_names declarations.now) }
{
    let mut names = Vec::new(alloc);
    for declaration in declarations {
        if let Declaration::Deal { name, .. } = declaration {
            names.push(*name)?;
        }
    }
    Ok(names)
}

fn write_ledger(
    alloc: Global,
    declarations: &Declarations,
    ledger: &Ledger,
    out: &mut String,
) -> Result<(), NoMemory>
    ensures { OnOk result (string_bytes out.new
        ≡ string_bytes out.old ++ ledger_text declarations.now ledger.now) }
{
    let name = ledger.name();
    let book = ledger.book();
    let assets = assets_of(alloc, book)?;
    let parties = listed(alloc, declarations.parties())?;
    let deals = in_order(alloc, &deal_names(alloc, declarations.as_slice())?)?;
    write!(out, "ledger {name}\n")?;
    Rows::Free.write_all(book, &assets, &parties, out)?;
    write_deals(alloc, declarations, book, &assets, &deals, out)
}

/// The first ledger of that name.
fn find_ledger<'a>(ledgers: &'a [Ledger], name: &Name) -> Option<&'a Ledger>
    ensures { option_copied result
        ≡ find (λ ledger. bytes_eq name.now ledger.name) ledgers.now }
{
    ledgers.iter().find(|ledger| name == ledger.name())
}

fn write_named(
    alloc: Global,
    declarations: &Declarations,
    ledgers: &[Ledger],
    name: &Name,
    out: &mut String,
) -> Result<(), NoMemory>
    ensures { OnOk result (string_bytes out.new
        ≡ string_bytes out.old ++ named_text declarations.now ledgers.now name.now) }
{
    match find_ledger(ledgers, name) {
        Some(ledger) => write_ledger(alloc, declarations, ledger, out),
        None => Ok(()),
    }
}

/// The ledgers of these names.
fn write_ledgers(
    alloc: Global,
    declarations: &Declarations,
    ledgers: &[Ledger],
    names: &[Name],
    out: &mut String,
) -> Result<(), NoMemory>
    ensures { OnOk result (string_bytes out.new
        ≡ string_bytes out.old ++ flat_map (named_text declarations.now ledgers.now) names.now) }
{
    for name in names {
        write_named(alloc, declarations, ledgers, name, out)?;
    }
    Ok(())
}

/// The names of the ledgers, in their order.
fn ledger_names(alloc: Global, ledgers: &[Ledger]) -> Result<Vec<Name>, NoMemory>
    ensures { IfOk result (λ names. names.items ≡ map (λ ledger. ledger.name) ledgers.now) }
{
    let mut names = Vec::new(alloc);
    for ledger in ledgers {
        names.push(*ledger.name())?;
    }
    Ok(names)
}

/// The final tables: for each ledger what is free on it, and each deal that is registered there.
pub fn write_tables(
    alloc: Global,
    declarations: &Declarations,
    world: &World,
    out: &mut String,
) -> Result<(), NoMemory>
    ensures { OnOk result (string_bytes out.new
        ≡ string_bytes out.old ++ tables_text declarations.now world.now) }
{
    let ledgers = world.ledgers();
    let names = in_order(alloc, &ledger_names(alloc, ledgers)?)?;
    write_ledgers(alloc, declarations, ledgers, &names, out)
}
