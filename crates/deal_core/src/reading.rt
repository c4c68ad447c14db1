//! Reading a deal's text.

ghost use Rattle.std.specs.Prelude.{◌≡◌, IfOk, IfErr, MatchResult};
ghost use Rattle.deal_core.specs.Deals.{DealTold};
ghost use Rattle.deal_core.specs.DealText.{deal_text, IsSpellable};
ghost use Rattle.deal_core.specs.Drafts.{whole, reading_of, accounts_in, parties_in};
ghost use Rattle.deal_core.specs.Kept.{IsDeal};
ghost use Rattle.deal_core.specs.Reading.{IsFaultOf, IsLineFault, Answers};
ghost use Rattle.deal_core.specs.declared.deal_fault.DealFault.TheVariants.{NoMemory as OutOfMemory};

use crate::deal::Deal;
use crate::deal_fault::DealFault;
use crate::draft::Draft;
use crate::laws::{found, only};
use crate::reach::first_apart;
use dh_base::{Id, List, NoMemory, digest};
use line_text::Lines;
use std::alloc::Global;

/// What the lines of the text come to, or the first fault of one.
fn read_lines(alloc: Global, text: &[u8]) -> Result<Draft, DealFault>
    ensures draft { IfOk result (λ draft. reading_of text.now ≡ whole draft) }
    ensures fault { IfErr result (IsFaultOf text.now) }
    ensures line { IfErr result (IsLineFault text.now) }
{
    let mut draft = Draft::new(alloc);
    let mut lines = Lines::new(text);
    while let Some(line) = lines.next_line() {
        if let Some(fault) = draft.take_line(&line)? {
            return Err(fault);
        }
    }
    Ok(draft)
}

/// The deal of the draft, if it has all that a deal has.
fn finish(draft: Draft, text: &[u8]) -> Result<Deal, DealFault>
    requires { reading_of text.now ≡ whole draft }
    ensures { Answers text.now result }
{
    found();
    let line = draft.lines() + 1;
    let Draft {
        name,
        house,
        parties,
        steps,
    } = draft;
    let (Some(name), Some(house)) = (name, house) else {
        return Err(DealFault::BadLine { line });
    };
    if steps.as_slice().is_empty() {
        return Err(DealFault::BadLine { line });
    }
    if let Some(party) = first_apart(steps.as_slice(), parties.as_slice()) {
        return Err(DealFault::NotConnected { party });
    }
    Ok(Deal {
        id: digest(text),
        house,
        name,
        parties: List::from_vec(parties),
        steps: List::from_vec(steps),
    })
}

/// What the text is read as.
fn read(alloc: Global, text: &[u8]) -> Result<Deal, DealFault>
    ensures { Answers text.now result }
{
    let draft = read_lines(alloc, text)?;
    finish(draft, text)
}

/// Reads a deal's text: its one deal, or the first fault.
pub fn read_deal(alloc: Global, text: &[u8]) -> Result<Deal, DealFault>
    ensures answer { Answers text.now result }
    // The text of a deal is read as that deal, unless memory runs out.
    ensures only { (deal : DealTold) → IsDeal deal → IsSpellable deal → text.now ≡ deal_text deal →
        MatchResult result (λ read. read ≡ deal) (λ fault. fault ≡ OutOfMemory) }
{
    only();
    read(alloc, text)
}

/// The accounts of the parties of a draft that has all that a deal has.
fn accounts_in(alloc: Global, draft: &Draft) -> Result<List<Id>, NoMemory>
    ensures { IfOk result (λ accounts. accounts ≡ accounts_in (whole draft.now)) }
{
    let mut accounts = Vec::new(alloc);
    if draft.name.is_none() || draft.house.is_none() || draft.steps.is_empty() {
        return Ok(List::from_vec(accounts));
    }
    for party in &draft.parties {
        accounts.push(party.account)?;
    }
    Ok(List::from_vec(accounts))
}

/// The accounts of the parties whom a deal's text names, and none where a line is at fault. It
/// isn't looked at whether the parties reach each other.
pub fn parties_in(alloc: Global, text: &[u8]) -> Result<List<Id>, NoMemory>
    ensures { IfOk result (λ parties. parties ≡ parties_in text.now) }
{
    match read_lines(alloc, text) {
        Ok(draft) => accounts_in(alloc, &draft),
        Err(DealFault::NoMemory) => Err(NoMemory),
        Err(_) => Ok(List::from_vec(Vec::new(alloc))),
    }
}
