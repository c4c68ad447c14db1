//! The top call.

ghost use Rattle.std.specs.Prelude.{◌≡◌, map, string_bytes};
ghost use Rattle.deal_desk.specs.Endings.{Says, IsTold, IsCarriedOut, IsEnded, KeepsOneLog};

use crate::answering::answer;
use crate::command::Command;
use crate::ending::Ending;
use crate::reading::{ReadHalt, read_input};
use crate::writing::write_text;
use dh_base::{NoMemory, Sink, Source};
use std::alloc::Global;

const USAGE: &str =
    "usage: deal_desk clear | rehearse | fair N SEED | ledger | seat | board | agent | live\n";

/// Writes the text, and ends so.
fn say<K: Sink>(text: &[u8], ending: Ending, output: &mut K) -> Ending
    ensures { Says ending result (K.seen output.old) text.now (K.seen output.new) }
{
    match write_text(text, output) {
        Ok(()) => ending,
        Err(_) => Ending::OutputFailed,
    }
}

/// Writes what the command answers to the input.
fn tell<K: Sink>(alloc: Global, command: Command, input: &[u8], output: &mut K) -> Ending
    ensures { IsTold command result input.now (K.seen output.old) (K.seen output.new) }
{
    match answer(alloc, command, input) {
        Ok(answer) => say(answer.text.as_slice(), answer.ending, output),
        Err(NoMemory) => Ending::NoMemory,
    }
}

/// Reads the input, and writes what the command answers to it.
fn carry_out<S: Source, K: Sink>(
    alloc: Global,
    command: Command,
    input: &mut S,
    output: &mut K,
) -> Ending
    ensures { IsCarriedOut command result
        (S.seen input.old) (S.seen input.new) (K.seen output.old) (K.seen output.new) }
{
    match read_input(alloc, input) {
        Ok(bytes) => tell(alloc, command, &bytes, output),
        Err(ReadHalt::Failed) => Ending::InputFailed,
        Err(ReadHalt::NoMemory) => Ending::NoMemory,
    }
}

/// Runs the words, from the source to the sink, and answers the exit status: 0 where the command
/// did all its work (the clearing of a deal or the report of a script is written), 1 for words that
/// the program doesn't know, 2 for an input that is refused (a script that breaks a rule, a text
/// that is no deal's, or too many bytes), 3 and 4 where the source or the sink fails, and 7 where
/// memory runs out.
pub fn run<S: Source, K: Sink>(alloc: Global, words: &[String], input: &mut S, output: &mut K) -> u8
    ensures ended { IsEnded result (map string_bytes words.now)
        (S.seen input.old) (S.seen input.new) (K.seen output.old) (K.seen output.new) }
    ensures one_log { KeepsOneLog result (map string_bytes words.now)
        (S.seen input.old) (K.seen output.old) (K.seen output.new) }
{
    let Some(command) = Command::from_words(words) else {
        return say(USAGE.as_bytes(), Ending::Usage, output).status();
    };
    carry_out(alloc, command, input, output).status()
}
