//! Writing a deal's text.

ghost use Rattle.std.specs.Prelude.{◌≡◌, ◌<◌, [], ◌∷◌, ◌++◌, length, IfOk, OnOk, string_bytes, map};
ghost use Rattle.std.specs.List.{AllByRecursion};
ghost use Rattle.deal_core.specs.DealText.{party_name, party_words, step_words, lines_text, deal_text};
ghost use Rattle.deal_core.specs.Kept.{IsStepOf};

use crate::deal::Deal;
use crate::party::Party;
use crate::step::Step;
use dh_base::{List, Name, NoMemory};
use std::alloc::Global;
use std::fmt::Write;

/// The name of the party of the index.
fn name_of(parties: &[Party], index: u16) -> Name
    requires { index < length parties.now }
    ensures { result ≡ party_name parties.now index }
{
    parties[index as usize].name
}

/// Writes the line of a party.
fn write_party(party: &Party, out: &mut String) -> Result<(), NoMemory>
    ensures { OnOk result (string_bytes out.new
        ≡ string_bytes out.old ++ lines_text (party_words party.now ∷ [])) }
{
    let name = party.name;
    let account = party.account;
    write!(out, "party {name} {account}\n")?;
    Ok(())
}

/// Writes the line of a step.
fn write_step(parties: &[Party], step: &Step, out: &mut String) -> Result<(), NoMemory>
    requires { IsStepOf (length parties.now) step.now }
    ensures { OnOk result (string_bytes out.new
        ≡ string_bytes out.old ++ lines_text (step_words parties.now step.now ∷ [])) }
{
    let from = name_of(parties, step.from);
    let to = name_of(parties, step.to);
    let ledger = step.ledger;
    let asset = step.asset;
    let amount = step.amount;
    write!(out, "step {from} {to} {ledger} {asset} {amount}\n")?;
    Ok(())
}

/// Writes the lines of the parties.
fn write_parties(parties: &[Party], out: &mut String) -> Result<(), NoMemory>
    ensures { OnOk result (string_bytes out.new
        ≡ string_bytes out.old ++ lines_text (map party_words parties.now)) }
{
    for party in parties {
        write_party(party, out)?;
    }
    Ok(())
}

/// Writes the lines of the steps.
fn write_steps(parties: &[Party], steps: &[Step], out: &mut String) -> Result<(), NoMemory>
    requires { AllByRecursion (IsStepOf (length parties.now)) steps.now }
    ensures { OnOk result (string_bytes out.new
        ≡ string_bytes out.old ++ lines_text (map (step_words parties.now) steps.now)) }
{
    for step in steps {
        write_step(parties, step, out)?;
    }
    Ok(())
}

/// The text of the deal. That of a deal that was read is the text that it was read from.
pub fn write_deal(alloc: Global, deal: &Deal) -> Result<List<u8>, NoMemory>
    ensures { IfOk result (λ text. text ≡ deal_text deal.now) }
{
    let mut out = String::new(alloc);
    let name = deal.name;
    let house = deal.house;
    write!(out, "deal {name}\nhouse {house}\n")?;
    write_parties(deal.parties(), &mut out)?;
    write_steps(deal.parties(), deal.steps(), &mut out)?;
    Ok(List::from_vec(out.into_bytes()))
}
