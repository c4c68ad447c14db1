//! Reading what a forged envelope says, from the words of its text.

ghost use Rattle.std.specs.Prelude.{◌≡◌, IfOk};
ghost use Rattle.house_grammar.specs.SaidTexts.{
  transfer_after,
  vote_after,
  bytes_after,
  text_after,
  forged_text,
};

use crate::forged_text::ForgedText;
use dh_base::{NoMemory, Outcome};
use house_words::tails::{
    one_name, three_names, three_names_amount, three_names_number_outcome, two_names,
};
use house_words::word_kinds::{hex_bytes, one_of};
use house_words::{TextKeyword, text_keyword};
use line_text::Words;
use std::alloc::Global;

fn register(words: Words<'_>) -> Option<ForgedText>
    ensures { result ≡ text_after TextKeyword.Register words.entry }
{
    let deal = one_name(words)?;
    Some(ForgedText::Register { deal })
}

fn pay(words: Words<'_>) -> Option<ForgedText>
    ensures { result ≡ text_after TextKeyword.Pay words.entry }
{
    let (ledger, to, asset, amount) = three_names_amount(words)?;
    Some(ForgedText::Pay {
        ledger,
        to,
        asset,
        amount,
    })
}

fn escrow(words: Words<'_>) -> Option<ForgedText>
    ensures { result ≡ text_after TextKeyword.Escrow words.entry }
{
    let (deal, ledger, asset, amount) = three_names_amount(words)?;
    Some(ForgedText::Escrow {
        deal,
        ledger,
        asset,
        amount,
    })
}

#[tactic(auto, unfolding(crate::specs::SaidTexts::transfer_after))]
fn transfer(mut words: Words<'_>) -> Option<ForgedText>
    ensures { result ≡ transfer_after words.entry }
{
    let deal = words.name()?;
    let ledger = words.name()?;
    let turn = words.number_u32()?;
    let to = words.name()?;
    let asset = words.name()?;
    let amount = words.amount()?;
    if !words.is_done() {
        return None;
    }
    Some(ForgedText::Transfer {
        deal,
        ledger,
        turn,
        to,
        asset,
        amount,
    })
}

fn start(words: Words<'_>) -> Option<ForgedText>
    ensures { result ≡ text_after TextKeyword.Start words.entry }
{
    let deal = one_name(words)?;
    Some(ForgedText::Start { deal })
}

#[tactic(auto, unfolding(crate::specs::SaidTexts::vote_after))]
fn vote(mut words: Words<'_>) -> Option<ForgedText>
    ensures { result ≡ vote_after words.entry }
{
    let deal = words.name()?;
    let vote = one_of(
        &mut words,
        b"commit",
        Outcome::Commit,
        b"abort",
        Outcome::Abort,
    )?;
    if !words.is_done() {
        return None;
    }
    Some(ForgedText::Vote { deal, vote })
}

fn prefix(words: Words<'_>) -> Option<ForgedText>
    ensures { result ≡ text_after TextKeyword.Prefix words.entry }
{
    let (set, log) = two_names(words)?;
    Some(ForgedText::Prefix { set, log })
}

fn handover(words: Words<'_>) -> Option<ForgedText>
    ensures { result ≡ text_after TextKeyword.Handover words.entry }
{
    let (set, log, next) = three_names(words)?;
    Some(ForgedText::Handover { set, log, next })
}

fn status(words: Words<'_>) -> Option<ForgedText>
    ensures { result ≡ text_after TextKeyword.Status words.entry }
{
    let (set, deal, log, len, outcome) = three_names_number_outcome(words)?;
    Some(ForgedText::Status {
        set,
        deal,
        log,
        len,
        outcome,
    })
}

#[tactic(auto, unfolding(crate::specs::SaidTexts::bytes_after))]
fn bytes(alloc: Global, mut words: Words<'_>) -> Result<Option<ForgedText>, NoMemory>
    ensures { IfOk result (λ text. text ≡ bytes_after words.entry) }
{
    let Some(word) = words.next_word() else {
        return Ok(None);
    };
    let Some(message) = hex_bytes(alloc, word)? else {
        return Ok(None);
    };
    if !words.is_done() {
        return Ok(None);
    }
    Ok(Some(ForgedText::Bytes { message }))
}

/// What stands behind the word with which the text begins.
fn text_after(
    alloc: Global,
    keyword: TextKeyword,
    words: Words<'_>,
) -> Result<Option<ForgedText>, NoMemory>
    ensures { IfOk result (λ text. text ≡ text_after keyword words.entry) }
{
    match keyword {
        TextKeyword::Register => Ok(register(words)),
        TextKeyword::Pay => Ok(pay(words)),
        TextKeyword::Escrow => Ok(escrow(words)),
        TextKeyword::Transfer => Ok(transfer(words)),
        TextKeyword::Start => Ok(start(words)),
        TextKeyword::Vote => Ok(vote(words)),
        TextKeyword::Prefix => Ok(prefix(words)),
        TextKeyword::Handover => Ok(handover(words)),
        TextKeyword::Status => Ok(status(words)),
        TextKeyword::Bytes => bytes(alloc, words),
    }
}

/// The text that the words say.
#[tactic(auto, unfolding(crate::specs::SaidTexts::forged_text))]
pub(crate) fn forged_text(
    alloc: Global,
    mut words: Words<'_>,
) -> Result<Option<ForgedText>, NoMemory>
    ensures { IfOk result (λ text. text ≡ forged_text words.entry) }
{
    let Some(word) = words.next_word() else {
        return Ok(None);
    };
    match text_keyword(word) {
        Some(keyword) => text_after(alloc, keyword, words),
        None => Ok(None),
    }
}
