//! Reading what a line says, from its words.

ghost use Rattle.std.specs.Prelude.{◌≡◌, IfOk};
ghost use Rattle.line_text.specs.Reading.{ended as none_left};
ghost use Rattle.plain_script.specs.declared.event.Event.TheVariants.{Start as StartOf, Commit as CommitOf, Abort as AbortOf};
ghost use Rattle.plain_script.specs.Said.{
  ledger_after,
  open_after,
  deal_after,
  register_after,
  escrow_after,
  transfer_after,
  log_after,
  claim_after,
  statement_after,
  statement_of,
};

use crate::declaration::Declaration;
use crate::event::Event;
use crate::first_word::keyword;
use crate::keyword::Keyword;
use crate::statement::Statement;
use dh_base::NoMemory;
use line_text::Words;
use script_lines::names;
use std::alloc::Global;

#[tactic(auto, unfolding(crate::specs::Said::ledger_after))]
fn ledger(mut words: Words<'_>) -> Option<Declaration>
    ensures { result ≡ ledger_after words.entry }
{
    let name = words.name()?;
    if !words.is_done() {
        return None;
    }
    Some(Declaration::Ledger { name })
}

#[tactic(auto, unfolding(crate::specs::Said::open_after))]
fn open(mut words: Words<'_>) -> Option<Declaration>
    ensures { result ≡ open_after words.entry }
{
    let ledger = words.name()?;
    let asset = words.name()?;
    let party = words.name()?;
    let amount = words.amount()?;
    if !words.is_done() {
        return None;
    }
    Some(Declaration::Open {
        ledger,
        asset,
        party,
        amount,
    })
}

#[tactic(auto, unfolding(crate::specs::Said::register_after))]
fn register(mut words: Words<'_>) -> Option<Event>
    ensures { result ≡ register_after words.entry }
{
    let ledger = words.name()?;
    let deal = words.name()?;
    let party = words.name()?;
    if !words.is_done() {
        return None;
    }
    Some(Event::Register {
        ledger,
        deal,
        party,
    })
}

#[tactic(auto, unfolding(crate::specs::Said::escrow_after))]
fn escrow(mut words: Words<'_>) -> Option<Event>
    ensures { result ≡ escrow_after words.entry }
{
    let ledger = words.name()?;
    let deal = words.name()?;
    let party = words.name()?;
    let asset = words.name()?;
    let amount = words.amount()?;
    if !words.is_done() {
        return None;
    }
    Some(Event::Escrow {
        ledger,
        deal,
        party,
        asset,
        amount,
    })
}

#[tactic(auto, unfolding(crate::specs::Said::transfer_after))]
fn transfer(mut words: Words<'_>) -> Option<Event>
    ensures { result ≡ transfer_after words.entry }
{
    let ledger = words.name()?;
    let deal = words.name()?;
    let from = words.name()?;
    let turn = words.number_u32()?;
    let to = words.name()?;
    let asset = words.name()?;
    let amount = words.amount()?;
    if !words.is_done() {
        return None;
    }
    Some(Event::Transfer {
        ledger,
        deal,
        from,
        turn,
        to,
        asset,
        amount,
    })
}

#[tactic(auto, unfolding(crate::specs::Said::log_after))]
fn start(mut words: Words<'_>) -> Option<Event>
    ensures { result ≡ log_after StartOf words.entry }
{
    let deal = words.name()?;
    let party = words.name()?;
    if !words.is_done() {
        return None;
    }
    Some(Event::Start { deal, party })
}

#[tactic(auto, unfolding(crate::specs::Said::log_after))]
fn commit(mut words: Words<'_>) -> Option<Event>
    ensures { result ≡ log_after CommitOf words.entry }
{
    let deal = words.name()?;
    let party = words.name()?;
    if !words.is_done() {
        return None;
    }
    Some(Event::Commit { deal, party })
}

#[tactic(auto, unfolding(crate::specs::Said::log_after))]
fn abort(mut words: Words<'_>) -> Option<Event>
    ensures { result ≡ log_after AbortOf words.entry }
{
    let deal = words.name()?;
    let party = words.name()?;
    if !words.is_done() {
        return None;
    }
    Some(Event::Abort { deal, party })
}

#[tactic(auto, unfolding(crate::specs::Said::claim_after))]
fn claim(mut words: Words<'_>) -> Option<Event>
    ensures { result ≡ claim_after words.entry }
{
    let ledger = words.name()?;
    let deal = words.name()?;
    let len = words.number_u32()?;
    if !words.is_done() {
        return None;
    }
    Some(Event::Claim { ledger, deal, len })
}

#[tactic(auto, unfolding(crate::specs::Said::deal_after))]
fn deal(alloc: Global, mut words: Words<'_>) -> Result<Option<Declaration>, NoMemory>
    ensures { IfOk result (λ deal. deal ≡ deal_after words.entry) }
{
    let Some(name) = words.name() else {
        return Ok(None);
    };
    let Some(parties) = names(alloc, words)? else {
        return Ok(None);
    };
    Ok(Some(Declaration::Deal { name, parties }))
}

/// The statement, where no word is left.
fn bare(words: Words<'_>, statement: Statement) -> Option<Statement>
    ensures { result ≡ none_left words.entry statement }
{
    if words.is_done() {
        Some(statement)
    } else {
        None
    }
}

fn statement_after(
    alloc: Global,
    keyword: Keyword,
    words: Words<'_>,
) -> Result<Option<Statement>, NoMemory>
    ensures { IfOk result (λ statement. statement ≡ statement_after keyword words.entry) }
{
    match keyword {
        Keyword::Plain => Ok(bare(words, Statement::Plain)),
        Keyword::House => Ok(bare(words, Statement::House)),
        Keyword::Begin => Ok(bare(words, Statement::Begin)),
        Keyword::Ledger => Ok(ledger(words).map(Statement::Declare)),
        Keyword::Open => Ok(open(words).map(Statement::Declare)),
        Keyword::Deal => Ok(deal(alloc, words)?.map(Statement::Declare)),
        Keyword::Register => Ok(register(words).map(Statement::Happen)),
        Keyword::Escrow => Ok(escrow(words).map(Statement::Happen)),
        Keyword::Transfer => Ok(transfer(words).map(Statement::Happen)),
        Keyword::Start => Ok(start(words).map(Statement::Happen)),
        Keyword::Commit => Ok(commit(words).map(Statement::Happen)),
        Keyword::Abort => Ok(abort(words).map(Statement::Happen)),
        Keyword::Claim => Ok(claim(words).map(Statement::Happen)),
    }
}

/// What the line says, or None where it has no line's form.
pub fn statement(alloc: Global, line: &[u8]) -> Result<Option<Statement>, NoMemory>
    ensures { IfOk result (λ statement. statement ≡ statement_of line.now) }
{
    let mut words = Words::new(line);
    let Some(first) = words.next_word() else {
        return Ok(None);
    };
    match keyword(first) {
        Some(keyword) => statement_after(alloc, keyword, words),
        None => Ok(None),
    }
}
