//! Reading what a line that builds says, from its words.

ghost use Rattle.std.specs.Prelude.{◌≡◌, IfOk};
ghost use Rattle.house_grammar.specs.SaidBuildings.{
  forge_after,
  record_line,
  record_after,
  term_after,
  building_after,
};

use crate::building::{Building, TermSide};
use crate::record_line::RecordLine;
use crate::said_text::forged_text;
use dh_base::NoMemory;
use house_words::BuildingKeyword;
use house_words::tails::{
    name_number_name, one_name, three_names_number_outcome, two_names, two_names_number,
    two_names_number_then,
};
use house_words::word_kinds::one_of;
use line_text::Words;
use std::alloc::Global;

#[tactic(auto, unfolding(crate::specs::SaidBuildings::forge_after))]
fn forge(alloc: Global, mut words: Words<'_>) -> Result<Option<Building>, NoMemory>
    ensures { IfOk result (λ line. line ≡ forge_after words.entry) }
{
    let Some((envelope, holder, key)) = two_names_number_then(&mut words) else {
        return Ok(None);
    };
    let Some(text) = forged_text(alloc, words)? else {
        return Ok(None);
    };
    Ok(Some(Building::Forge {
        envelope,
        holder,
        key,
        text,
    }))
}

fn flip(words: Words<'_>) -> Option<Building>
    ensures { result ≡ building_after BuildingKeyword.Flip words.entry }
{
    let (flipped, envelope) = two_names(words)?;
    Some(Building::Flip { flipped, envelope })
}

fn log(words: Words<'_>) -> Option<Building>
    ensures { result ≡ building_after BuildingKeyword.Log words.entry }
{
    let log = one_name(words)?;
    Some(Building::Log { log })
}

/// The record that the words say.
#[tactic(auto, unfolding(crate::specs::SaidBuildings::record_line))]
fn record_line(mut words: Words<'_>) -> Option<RecordLine>
    ensures { result ≡ record_line words.entry }
{
    let word = words.next_word()?;
    if word == b"start".as_slice() {
        let deal = one_name(words)?;
        return Some(RecordLine::Start { deal });
    }
    if word == b"commit".as_slice() {
        let (deal, party) = two_names(words)?;
        return Some(RecordLine::Commit { deal, party });
    }
    if word == b"abort".as_slice() {
        let (deal, party) = two_names(words)?;
        return Some(RecordLine::Abort { deal, party });
    }
    None
}

#[tactic(auto, unfolding(crate::specs::SaidBuildings::record_after))]
fn record(mut words: Words<'_>) -> Option<Building>
    ensures { result ≡ record_after words.entry }
{
    let log = words.name()?;
    let record = record_line(words)?;
    Some(Building::Record { log, record })
}

fn take(words: Words<'_>) -> Option<Building>
    ensures { result ≡ building_after BuildingKeyword.Take words.entry }
{
    let (log, seat, len) = two_names_number(words)?;
    Some(Building::Take { log, seat, len })
}

fn claim(words: Words<'_>) -> Option<Building>
    ensures { result ≡ building_after BuildingKeyword.Claim words.entry }
{
    let (claim, log) = two_names(words)?;
    Some(Building::Claim { claim, log })
}

fn cut(words: Words<'_>) -> Option<Building>
    ensures { result ≡ building_after BuildingKeyword.Cut words.entry }
{
    let claim = one_name(words)?;
    Some(Building::Cut { claim })
}

fn link(words: Words<'_>) -> Option<Building>
    ensures { result ≡ building_after BuildingKeyword.Link words.entry }
{
    let (claim, set, len) = two_names_number(words)?;
    Some(Building::Link { claim, set, len })
}

fn linkby(words: Words<'_>) -> Option<Building>
    ensures { result ≡ building_after BuildingKeyword.LinkBy words.entry }
{
    let (claim, seat, envelope) = name_number_name(words)?;
    Some(Building::LinkBy {
        claim,
        seat,
        envelope,
    })
}

fn by(words: Words<'_>) -> Option<Building>
    ensures { result ≡ building_after BuildingKeyword.By words.entry }
{
    let (claim, seat, envelope) = name_number_name(words)?;
    Some(Building::By {
        claim,
        seat,
        envelope,
    })
}

#[tactic(auto, unfolding(crate::specs::SaidBuildings::term_after))]
fn term(mut words: Words<'_>) -> Option<Building>
    ensures { result ≡ term_after words.entry }
{
    let terms = words.name()?;
    let side = one_of(&mut words, b"give", TermSide::Give, b"get", TermSide::Get)?;
    let ledger = words.name()?;
    let asset = words.name()?;
    let amount = words.amount()?;
    if !words.is_done() {
        return None;
    }
    Some(Building::Term {
        terms,
        side,
        ledger,
        asset,
        amount,
    })
}

fn status_claim(words: Words<'_>) -> Option<Building>
    ensures { result ≡ building_after BuildingKeyword.StatusClaim words.entry }
{
    let (claim, deal, log, len, outcome) = three_names_number_outcome(words)?;
    Some(Building::StatusClaim {
        claim,
        deal,
        log,
        len,
        outcome,
    })
}

/// What stands behind the word with which the line begins.
pub(crate) fn building_after(
    alloc: Global,
    keyword: BuildingKeyword,
    words: Words<'_>,
) -> Result<Option<Building>, NoMemory>
    ensures { IfOk result (λ said. said ≡ building_after keyword words.entry) }
{
    match keyword {
        BuildingKeyword::Forge => forge(alloc, words),
        BuildingKeyword::Flip => Ok(flip(words)),
        BuildingKeyword::Log => Ok(log(words)),
        BuildingKeyword::Record => Ok(record(words)),
        BuildingKeyword::Take => Ok(take(words)),
        BuildingKeyword::Claim => Ok(claim(words)),
        BuildingKeyword::Cut => Ok(cut(words)),
        BuildingKeyword::Link => Ok(link(words)),
        BuildingKeyword::LinkBy => Ok(linkby(words)),
        BuildingKeyword::By => Ok(by(words)),
        BuildingKeyword::Term => Ok(term(words)),
        BuildingKeyword::StatusClaim => Ok(status_claim(words)),
    }
}
