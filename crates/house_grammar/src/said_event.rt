//! Reading what a line that happens says, from its words.

ghost use Rattle.std.specs.Prelude.{◌≡◌, IfOk};
ghost use Rattle.house_grammar.specs.SaidEvents.{
  ask_after,
  join_after,
  tick_after,
  install_after,
  stop_after,
  event_after,
};

use crate::event::{Event, StopSide};
use dh_base::NoMemory;
use house_words::EventKeyword;
use house_words::tails::{
    name_if_any, name_number_name, one_name, three_names, two_names, two_names_number_name,
};
use house_words::word_kinds::{number_u64, one_of};
use line_text::Words;
use script_lines::names;
use std::alloc::Global;

fn deliver(words: Words<'_>) -> Option<Event>
    ensures { result ≡ event_after EventKeyword.Deliver words.entry }
{
    let (ledger, envelope) = two_names(words)?;
    Some(Event::Deliver { ledger, envelope })
}

fn show(words: Words<'_>) -> Option<Event>
    ensures { result ≡ event_after EventKeyword.Show words.entry }
{
    let (ledger, deal, claim) = three_names(words)?;
    Some(Event::Show {
        ledger,
        deal,
        claim,
    })
}

#[tactic(auto, unfolding(crate::specs::SaidEvents::ask_after))]
fn ask(mut words: Words<'_>) -> Option<Event>
    ensures { result ≡ ask_after words.entry }
{
    let statement = words.name()?;
    let ledger = words.name()?;
    let deal = words.name()?;
    let party = words.name()?;
    if !words.is_done() {
        return None;
    }
    Some(Event::Ask {
        statement,
        ledger,
        deal,
        party,
    })
}

#[tactic(auto, unfolding(crate::specs::SaidEvents::join_after))]
fn join(mut words: Words<'_>) -> Option<Event>
    ensures { result ≡ join_after words.entry }
{
    let party = words.name()?;
    let deal = words.name()?;
    let deadline = number_u64(&mut words)?;
    let terms = name_if_any(words)?;
    Some(Event::Join {
        party,
        deal,
        deadline,
        terms,
    })
}

fn next(words: Words<'_>) -> Option<Event>
    ensures { result ≡ event_after EventKeyword.Next words.entry }
{
    let (party, deal, envelope) = three_names(words)?;
    Some(Event::Next {
        party,
        deal,
        envelope,
    })
}

fn again(words: Words<'_>) -> Option<Event>
    ensures { result ≡ event_after EventKeyword.Again words.entry }
{
    let (party, deal, act, envelope) = two_names_number_name(words)?;
    Some(Event::Again {
        party,
        deal,
        act,
        envelope,
    })
}

fn start(words: Words<'_>) -> Option<Event>
    ensures { result ≡ event_after EventKeyword.Start words.entry }
{
    let (party, deal, envelope) = three_names(words)?;
    Some(Event::Start {
        party,
        deal,
        envelope,
    })
}

fn commit(words: Words<'_>) -> Option<Event>
    ensures { result ≡ event_after EventKeyword.Commit words.entry }
{
    let (party, deal, envelope) = three_names(words)?;
    Some(Event::Commit {
        party,
        deal,
        envelope,
    })
}

fn abort(words: Words<'_>) -> Option<Event>
    ensures { result ≡ event_after EventKeyword.Abort words.entry }
{
    let (party, deal, envelope) = three_names(words)?;
    Some(Event::Abort {
        party,
        deal,
        envelope,
    })
}

#[tactic(auto, unfolding(crate::specs::SaidEvents::tick_after))]
fn tick(mut words: Words<'_>) -> Option<Event>
    ensures { result ≡ tick_after words.entry }
{
    let party = words.name()?;
    let deal = words.name()?;
    let now = number_u64(&mut words)?;
    let envelope = words.name()?;
    if !words.is_done() {
        return None;
    }
    Some(Event::Tick {
        party,
        deal,
        now,
        envelope,
    })
}

fn hear(words: Words<'_>) -> Option<Event>
    ensures { result ≡ event_after EventKeyword.Hear words.entry }
{
    let (party, statement) = two_names(words)?;
    Some(Event::Hear { party, statement })
}

fn enter(words: Words<'_>) -> Option<Event>
    ensures { result ≡ event_after EventKeyword.Enter words.entry }
{
    let (seat, at, envelope) = name_number_name(words)?;
    Some(Event::Enter { seat, at, envelope })
}

fn prefix(words: Words<'_>) -> Option<Event>
    ensures { result ≡ event_after EventKeyword.Prefix words.entry }
{
    let (seat, len, envelope) = name_number_name(words)?;
    Some(Event::Prefix {
        seat,
        len,
        envelope,
    })
}

fn handover(words: Words<'_>) -> Option<Event>
    ensures { result ≡ event_after EventKeyword.Handover words.entry }
{
    let (seat, set, len, envelope) = two_names_number_name(words)?;
    Some(Event::Handover {
        seat,
        set,
        len,
        envelope,
    })
}

#[tactic(auto, unfolding(crate::specs::SaidEvents::install_after))]
fn install(alloc: Global, mut words: Words<'_>) -> Result<Option<Event>, NoMemory>
    ensures { IfOk result (λ event. event ≡ install_after words.entry) }
{
    let Some(seat) = words.name() else {
        return Ok(None);
    };
    let Some(claim) = words.name() else {
        return Ok(None);
    };
    let Some(deals) = names(alloc, words)? else {
        return Ok(None);
    };
    Ok(Some(Event::Install { seat, claim, deals }))
}

fn fail(words: Words<'_>) -> Option<Event>
    ensures { result ≡ event_after EventKeyword.Fail words.entry }
{
    let node = one_name(words)?;
    Some(Event::Fail { node })
}

#[tactic(auto, unfolding(crate::specs::SaidEvents::stop_after))]
fn stop(mut words: Words<'_>) -> Option<Event>
    ensures { result ≡ stop_after words.entry }
{
    let node = words.name()?;
    let side = one_of(
        &mut words,
        b"before",
        StopSide::Before,
        b"after",
        StopSide::After,
    )?;
    if !words.is_done() {
        return None;
    }
    Some(Event::Stop { node, side })
}

fn reopen(words: Words<'_>) -> Option<Event>
    ensures { result ≡ event_after EventKeyword.Reopen words.entry }
{
    let node = one_name(words)?;
    Some(Event::Reopen { node })
}

fn status(words: Words<'_>) -> Option<Event>
    ensures { result ≡ event_after EventKeyword.Status words.entry }
{
    let (seat, deal, envelope) = three_names(words)?;
    Some(Event::Status {
        seat,
        deal,
        envelope,
    })
}

/// What stands behind the word with which the line begins.
pub(crate) fn event_after(
    alloc: Global,
    keyword: EventKeyword,
    words: Words<'_>,
) -> Result<Option<Event>, NoMemory>
    ensures { IfOk result (λ said. said ≡ event_after keyword words.entry) }
{
    match keyword {
        EventKeyword::Deliver => Ok(deliver(words)),
        EventKeyword::Show => Ok(show(words)),
        EventKeyword::Ask => Ok(ask(words)),
        EventKeyword::Join => Ok(join(words)),
        EventKeyword::Next => Ok(next(words)),
        EventKeyword::Again => Ok(again(words)),
        EventKeyword::Start => Ok(start(words)),
        EventKeyword::Commit => Ok(commit(words)),
        EventKeyword::Abort => Ok(abort(words)),
        EventKeyword::Tick => Ok(tick(words)),
        EventKeyword::Hear => Ok(hear(words)),
        EventKeyword::Enter => Ok(enter(words)),
        EventKeyword::Prefix => Ok(prefix(words)),
        EventKeyword::Handover => Ok(handover(words)),
        EventKeyword::Install => install(alloc, words),
        EventKeyword::Fail => Ok(fail(words)),
        EventKeyword::Stop => Ok(stop(words)),
        EventKeyword::Reopen => Ok(reopen(words)),
        EventKeyword::Status => Ok(status(words)),
    }
}
