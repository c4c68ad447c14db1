//! What each command answers to an input that was read.

ghost use Rattle.std.specs.Prelude.{◌≤◌, length, IfOk};
ghost use Rattle.deal_desk.specs.Answers.{IsCleared, IsRehearsed, IsTheAnswer};
ghost use Rattle.script_lines.specs.LineRules.{most_bytes};

use crate::answer::Answer;
use crate::command::Command;
use clear_core::clearing_text;
use deal_core::{DealFault, read_deal};
use dh_base::NoMemory;
use plain_core::{PlainHalt, rehearse_plain};
use script_lines::{MOST_BYTES, ScriptRule};
use std::alloc::Global;

/// The clearing of the deal whose text it is, or its fault.
fn clear_text(alloc: Global, text: &[u8]) -> Result<Answer, NoMemory>
    requires { length text.now ≤ most_bytes }
    ensures { IfOk result (λ answer. IsCleared text.now answer.ending answer.text) }
{
    match read_deal(alloc, text) {
        Ok(deal) => Ok(Answer::done(clearing_text(alloc, &deal)?)),
        Err(DealFault::NoMemory) => Err(NoMemory),
        Err(fault) => Answer::refused_deal(alloc, fault),
    }
}

/// What `clear` answers.
fn clear(alloc: Global, input: &[u8]) -> Result<Answer, NoMemory>
    ensures { IfOk result (λ answer. IsCleared input.now answer.ending answer.text) }
{
    if input.len() > MOST_BYTES {
        return Answer::refused(alloc, 0, ScriptRule::TooLarge);
    }
    clear_text(alloc, input)
}

/// What `rehearse` answers.
fn rehearse(alloc: Global, input: &[u8]) -> Result<Answer, NoMemory>
    ensures { IfOk result (λ answer. IsRehearsed input.now answer.ending answer.text) }
{
    match rehearse_plain(alloc, input) {
        Ok(text) => Ok(Answer::done(text)),
        Err(PlainHalt::Refused { line, rule }) => Answer::refused(alloc, line, rule),
        Err(PlainHalt::NoMemory) => Err(NoMemory),
    }
}

/// What the command answers to the input: its one answer.
pub fn answer(alloc: Global, command: Command, input: &[u8]) -> Result<Answer, NoMemory>
    ensures { IfOk result (λ answer. IsTheAnswer command input.now answer.ending answer.text) }
{
    match command {
        Command::Clear => clear(alloc, input),
        Command::Rehearse => rehearse(alloc, input),
    }
}
