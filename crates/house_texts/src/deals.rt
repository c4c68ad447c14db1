//! The texts of deals.

ghost use Rattle.std.specs.Prelude.{◌≡◌, ◌++◌, IfOk, OnOk, string_bytes};
ghost use Rattle.std.specs.List.{flat_map, filter_map};
ghost use Rattle.house_texts.specs.Deals.{party_line, step_line, deal_head, deal_text, deal_named, deal_by, deals_of};

use dh_base::{Id, List, Name, NoMemory, digest};
use house_grammar::Declaration;
use house_holders::Holders;
use std::alloc::Global;
use std::fmt::Write;

/// A declared deal: its name, its text, and its id, which is the digest of the text.
#[derive(Drop)]
pub struct DealText {
    pub name: Name,
    pub id: Id,
    pub text: List<u8>,
}

/// Writes the lines of the parties.
fn write_parties(holders: &Holders, parties: &[Name], out: &mut String) -> Result<(), NoMemory>
    ensures { OnOk result (string_bytes out.new
        ≡ string_bytes out.old ++ flat_map (party_line holders.now) parties.now) }
{
    for party in parties {
        let name = *party;
        let account = holders.account_of(party);
        write!(out, "party {name} {account}\n")?;
    }
    Ok(())
}

/// Writes the line of a step, where it is of the deal.
fn write_step(deal: &Name, declaration: &Declaration, out: &mut String) -> Result<(), NoMemory>
    ensures { OnOk result (string_bytes out.new
        ≡ string_bytes out.old ++ step_line deal.now declaration.now) }
{
    if let Declaration::Step {
        deal: within,
        from,
        to,
        ledger,
        asset,
        amount,
    } = declaration
    {
        if deal == within {
            write!(out, "step {from} {to} {ledger} {asset} {amount}\n")?;
        }
    }
    Ok(())
}

/// Writes the lines of the deal's steps.
fn write_steps(declarations: &[Declaration], deal: &Name, out: &mut String) -> Result<(), NoMemory>
    ensures { OnOk result (string_bytes out.new
        ≡ string_bytes out.old ++ flat_map (step_line deal.now) declarations.now) }
{
    for declaration in declarations {
        write_step(deal, declaration, out)?;
    }
    Ok(())
}

/// The text of a deal of these parties.
fn deal_text(
    alloc: Global,
    declarations: &[Declaration],
    holders: &Holders,
    house: &Id,
    deal: &Name,
    parties: &[Name],
) -> Result<List<u8>, NoMemory>
    ensures { IfOk result (λ text. text
        ≡ deal_text declarations.now holders.now house.now deal.now parties.now) }
{
    let name = *deal;
    let house = *house;
    let mut text = format!(in alloc; "deal {name}\nhouse {house}\n")?;
    write_parties(holders, parties, &mut text)?;
    write_steps(declarations, deal, &mut text)?;
    Ok(List::from_vec(text.into_bytes()))
}

/// The deal that the line declares.
fn deal_by(
    alloc: Global,
    declarations: &[Declaration],
    holders: &Holders,
    house: &Id,
    declaration: &Declaration,
) -> Result<Option<DealText>, NoMemory>
    ensures { IfOk result (λ deal. deal
        ≡ deal_by declarations.now holders.now house.now declaration.now) }
{
    if let Declaration::Deal { name, parties } = declaration {
        let text = deal_text(
            alloc,
            declarations,
            holders,
            house,
            name,
            parties.as_slice(),
        )?;
        let id = digest(text.as_slice());
        return Ok(Some(DealText {
            name: *name,
            id,
            text,
        }));
    }
    Ok(None)
}

/// All deals, in the order of their declarations.
pub(crate) fn deals_of(
    alloc: Global,
    declarations: &[Declaration],
    holders: &Holders,
    house: &Id,
) -> Result<Vec<DealText>, NoMemory>
    ensures { IfOk result (λ deals. deals.items
        ≡ deals_of declarations.now holders.now house.now) }
{
    let mut deals = Vec::new(alloc);
    for declaration in declarations {
        if let Some(deal) = deal_by(alloc, declarations, holders, house, declaration)? {
            deals.push(deal)?;
        }
    }
    Ok(deals)
}
