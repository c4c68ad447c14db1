//! Reading what a line that declares says, from its words.

ghost use Rattle.std.specs.Prelude.{◌≡◌, IfOk};
ghost use Rattle.house_grammar.specs.SaidDeclarations.{
  set_after,
  deal_after,
  step_after,
  declaration_after,
};

use crate::declaration::Declaration;
use crate::holder::name_conduct_size;
use dh_base::NoMemory;
use house_words::DeclarationKeyword;
use house_words::tails::{name_two_numbers, names_from, one_name, three_names_amount};
use line_text::Words;
use std::alloc::Global;

fn party(words: Words<'_>) -> Option<Declaration>
    ensures { result ≡ declaration_after DeclarationKeyword.Party words.entry }
{
    let (name, conduct, size) = name_conduct_size(words)?;
    Some(Declaration::Party {
        name,
        conduct,
        size,
    })
}

fn seat(words: Words<'_>) -> Option<Declaration>
    ensures { result ≡ declaration_after DeclarationKeyword.Seat words.entry }
{
    let (name, conduct, size) = name_conduct_size(words)?;
    Some(Declaration::Seat {
        name,
        conduct,
        size,
    })
}

#[tactic(auto, unfolding(crate::specs::SaidDeclarations::set_after))]
fn set(alloc: Global, mut words: Words<'_>) -> Result<Option<Declaration>, NoMemory>
    ensures { IfOk result (λ set. set ≡ set_after words.entry) }
{
    let Some((name, epoch, faults)) = name_two_numbers(&mut words) else {
        return Ok(None);
    };
    let Some(seats) = names_from(alloc, 1, words)? else {
        return Ok(None);
    };
    Ok(Some(Declaration::Set {
        name,
        epoch,
        faults,
        seats,
    }))
}

fn ledger(words: Words<'_>) -> Option<Declaration>
    ensures { result ≡ declaration_after DeclarationKeyword.Ledger words.entry }
{
    let name = one_name(words)?;
    Some(Declaration::Ledger { name })
}

fn open(words: Words<'_>) -> Option<Declaration>
    ensures { result ≡ declaration_after DeclarationKeyword.Open words.entry }
{
    let (ledger, asset, party, amount) = three_names_amount(words)?;
    Some(Declaration::Open {
        ledger,
        asset,
        party,
        amount,
    })
}

#[tactic(auto, unfolding(crate::specs::SaidDeclarations::deal_after))]
fn deal(alloc: Global, mut words: Words<'_>) -> Result<Option<Declaration>, NoMemory>
    ensures { IfOk result (λ deal. deal ≡ deal_after words.entry) }
{
    let Some(name) = words.name() else {
        return Ok(None);
    };
    let Some(parties) = names_from(alloc, 2, words)? else {
        return Ok(None);
    };
    Ok(Some(Declaration::Deal { name, parties }))
}

#[tactic(auto, unfolding(crate::specs::SaidDeclarations::step_after))]
fn step(mut words: Words<'_>) -> Option<Declaration>
    ensures { result ≡ step_after words.entry }
{
    let deal = words.name()?;
    let from = words.name()?;
    let to = words.name()?;
    let ledger = words.name()?;
    let asset = words.name()?;
    let amount = words.amount()?;
    if !words.is_done() {
        return None;
    }
    Some(Declaration::Step {
        deal,
        from,
        to,
        ledger,
        asset,
        amount,
    })
}

/// What stands behind the word with which the line begins.
pub(crate) fn declaration_after(
    alloc: Global,
    keyword: DeclarationKeyword,
    words: Words<'_>,
) -> Result<Option<Declaration>, NoMemory>
    ensures { IfOk result (λ said. said ≡ declaration_after keyword words.entry) }
{
    match keyword {
        DeclarationKeyword::Party => Ok(party(words)),
        DeclarationKeyword::Seat => Ok(seat(words)),
        DeclarationKeyword::Set => set(alloc, words),
        DeclarationKeyword::Ledger => Ok(ledger(words)),
        DeclarationKeyword::Open => Ok(open(words)),
        DeclarationKeyword::Deal => deal(alloc, words),
        DeclarationKeyword::Step => Ok(step(words)),
    }
}
