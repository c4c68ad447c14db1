//! Reading what a line says, from its words.

ghost use Rattle.std.specs.Prelude.{◌≡◌};
ghost use Rattle.line_text.specs.Seen.{line_of};
ghost use Rattle.deal_core.specs.Said.{deal_after, house_after, party_after, step_after, said_after, said_by};

use crate::deal_line::{DealLine, NamedStep};
use crate::party::Party;
use line_text::{TextLine, Words};

#[tactic(auto, unfolding(crate::specs::Said::deal_after))]
fn deal(mut words: Words<'_>) -> Option<DealLine>
    ensures { result ≡ deal_after words.entry }
{
    let name = words.name()?;
    if !words.is_done() {
        return None;
    }
    Some(DealLine::Deal { name })
}

#[tactic(auto, unfolding(crate::specs::Said::house_after))]
fn house(mut words: Words<'_>) -> Option<DealLine>
    ensures { result ≡ house_after words.entry }
{
    let house = words.id()?;
    if !words.is_done() {
        return None;
    }
    Some(DealLine::House { house })
}

#[tactic(auto, unfolding(crate::specs::Said::party_after))]
fn party(mut words: Words<'_>) -> Option<DealLine>
    ensures { result ≡ party_after words.entry }
{
    let name = words.name()?;
    let account = words.id()?;
    if !words.is_done() {
        return None;
    }
    Some(DealLine::Party {
        party: Party { name, account },
    })
}

#[tactic(auto, unfolding(crate::specs::Said::step_after))]
fn step(mut words: Words<'_>) -> Option<DealLine>
    ensures { result ≡ step_after words.entry }
{
    let from = words.name()?;
    let to = words.name()?;
    let ledger = words.name()?;
    let asset = words.name()?;
    let amount = words.amount()?;
    if !words.is_done() {
        return None;
    }
    Some(DealLine::Step {
        step: NamedStep {
            from,
            to,
            ledger,
            asset,
            amount,
        },
    })
}

/// What the line says whose first word this is.
fn said_after(word: &[u8], words: Words<'_>) -> Option<DealLine>
    ensures { result ≡ said_after word.now words.entry }
{
    if word == b"deal".as_slice() {
        return deal(words);
    }
    if word == b"house".as_slice() {
        return house(words);
    }
    if word == b"party".as_slice() {
        return party(words);
    }
    if word == b"step".as_slice() {
        return step(words);
    }
    None
}

/// What the line says, or None where it has no line's form.
pub(crate) fn said_by(line: &TextLine<'_>) -> Option<DealLine>
    ensures { result ≡ said_by (line_of line.now) }
{
    if !line.ended {
        return None;
    }
    let mut words = Words::new(line.text);
    let word = words.next_word()?;
    said_after(word, words)
}
