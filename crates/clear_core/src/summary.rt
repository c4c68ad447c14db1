//! What a deal's clearing tells, as text.

ghost use Rattle.std.specs.Prelude.{◌≡◌, ◌<◌, ◌++◌, ◌∷◌, length, IfOk, OnOk, string_bytes, codes};
ghost use Rattle.deal_core.specs.DealText.{party_name};
ghost use Rattle.clear_core.specs.Clearing.{need_of, due_of};
ghost use Rattle.clear_core.specs.Summaries.{
  amount_line,
  entry_line,
  party_lines,
  entries_text,
  row_text,
  matrix_text,
  party_text,
  parties_text,
  head_text,
  clearing_of,
};

use crate::clearing::{due, need};
use crate::pair::{Pair, pairs};
use deal_core::{Deal, matrix};
use dh_base::{List, Name, NoMemory};
use std::alloc::Global;
use std::fmt::Write;

/// The name of the party of the index.
fn name_of(deal: &Deal, party: u16) -> Name
    requires { party < length deal.now.parties }
    ensures { result ≡ party_name deal.now.parties party }
{
    deal.parties()[party as usize].name
}

/// Writes the entry of the matrix, where it is above 0.
fn write_entry(
    deal: &Deal,
    from: u16,
    to: u16,
    pair: &Pair,
    out: &mut String,
) -> Result<(), NoMemory>
    requires from { from < length deal.now.parties }
    requires to { to < length deal.now.parties }
    ensures { OnOk result (string_bytes out.new
        ≡ string_bytes out.old ++ entry_line deal.now from to pair.now) }
{
    let amount = matrix(deal, from, to, &pair.ledger, &pair.asset);
    let giver = name_of(deal, from);
    let taker = name_of(deal, to);
    let ledger = pair.ledger;
    let asset = pair.asset;
    if amount > 0 {
        write!(out, "matrix {giver} {taker} {ledger} {asset} {amount}\n")?;
    }
    Ok(())
}

/// Writes the entries from one party to another.
fn write_entries(
    deal: &Deal,
    from: u16,
    to: u16,
    pairs: &[Pair],
    out: &mut String,
) -> Result<(), NoMemory>
    requires from { from < length deal.now.parties }
    requires to { to < length deal.now.parties }
    ensures { OnOk result (string_bytes out.new
        ≡ string_bytes out.old ++ entries_text deal.now pairs.now from to) }
{
    for pair in pairs {
        write_entry(deal, from, to, pair, out)?;
    }
    Ok(())
}

/// Writes the entries from the party to each.
fn write_row(deal: &Deal, from: u16, pairs: &[Pair], out: &mut String) -> Result<(), NoMemory>
    requires { from < length deal.now.parties }
    ensures { OnOk result (string_bytes out.new
        ≡ string_bytes out.old ++ row_text deal.now pairs.now from) }
{
    for to in 0..deal.parties().len() {
        write_entries(deal, from, to as u16, pairs, out)?;
    }
    Ok(())
}

/// Writes the matrix, row by row.
fn write_matrix(deal: &Deal, pairs: &[Pair], out: &mut String) -> Result<(), NoMemory>
    ensures { OnOk result (string_bytes out.new
        ≡ string_bytes out.old ++ matrix_text deal.now pairs.now) }
{
    for from in 0..deal.parties().len() {
        write_row(deal, from as u16, pairs, out)?;
    }
    Ok(())
}

/// Writes what the party needs of the pair, where that is above 0.
fn write_need(deal: &Deal, party: u16, pair: &Pair, out: &mut String) -> Result<(), NoMemory>
    requires { party < length deal.now.parties }
    ensures { OnOk result (string_bytes out.new ≡ string_bytes out.old
        ++ amount_line (codes "need " ++ party_name deal.now.parties party) pair.now
        (need_of deal.now.steps party pair.now.ledger pair.now.asset)) }
{
    let amount = need(deal, party, &pair.ledger, &pair.asset);
    let name = name_of(deal, party);
    let ledger = pair.ledger;
    let asset = pair.asset;
    if amount > 0 {
        write!(out, "need {name} {ledger} {asset} {amount}\n")?;
    }
    Ok(())
}

/// Writes what the deal owes the party of the pair, where that is above 0.
fn write_due(deal: &Deal, party: u16, pair: &Pair, out: &mut String) -> Result<(), NoMemory>
    requires { party < length deal.now.parties }
    ensures { OnOk result (string_bytes out.new ≡ string_bytes out.old
        ++ amount_line (codes "due " ++ party_name deal.now.parties party) pair.now
        (due_of deal.now.steps party pair.now.ledger pair.now.asset)) }
{
    let amount = due(deal, party, &pair.ledger, &pair.asset);
    let name = name_of(deal, party);
    let ledger = pair.ledger;
    let asset = pair.asset;
    if amount > 0 {
        write!(out, "due {name} {ledger} {asset} {amount}\n")?;
    }
    Ok(())
}

/// Writes what the party needs and is owed, pair by pair.
fn write_party(deal: &Deal, party: u16, pairs: &[Pair], out: &mut String) -> Result<(), NoMemory>
    requires { party < length deal.now.parties }
    ensures { OnOk result (string_bytes out.new
        ≡ string_bytes out.old ++ party_text deal.now pairs.now party) }
{
    for pair in pairs {
        write_need(deal, party, pair, out)?;
        write_due(deal, party, pair, out)?;
    }
    Ok(())
}

/// Writes what each party needs and is owed.
fn write_parties(deal: &Deal, pairs: &[Pair], out: &mut String) -> Result<(), NoMemory>
    ensures { OnOk result (string_bytes out.new
        ≡ string_bytes out.old ++ parties_text deal.now pairs.now) }
{
    for party in 0..deal.parties().len() {
        write_party(deal, party as u16, pairs, out)?;
    }
    Ok(())
}

/// Writes the deal's name and its id.
fn write_head(deal: &Deal, out: &mut String) -> Result<(), NoMemory>
    ensures { OnOk result (string_bytes out.new ≡ string_bytes out.old ++ head_text deal.now) }
{
    let name = deal.name;
    let id = deal.id;
    write!(out, "deal {name}\nid {id}\n")?;
    Ok(())
}

/// The clearing of the deal: its name and id, its matrix, and each party's needs and dues.
pub fn clearing_text(alloc: Global, deal: &Deal) -> Result<List<u8>, NoMemory>
    ensures { IfOk result (λ text. text ≡ clearing_of deal.now) }
{
    let pairs = pairs(alloc, deal.steps())?;
    let mut out = String::new(alloc);
    write_head(deal, &mut out)?;
    write_matrix(deal, pairs.as_slice(), &mut out)?;
    write_parties(deal, pairs.as_slice(), &mut out)?;
    Ok(List::from_vec(out.into_bytes()))
}
