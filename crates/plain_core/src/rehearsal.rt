//! Rehearsals of plain scripts.

ghost use Rattle.std.specs.Prelude.{◌≡◌, ◌-◌, ◌<◌, ◌++◌, [], length, string_bytes, OnOk};
ghost use Rattle.escrow_book.specs.Base.{greatest_turn};
ghost use Rattle.plain_script.specs.Answers.{script_told};
ghost use Rattle.plain_core.specs.Given.{AreWithin};
ghost use Rattle.plain_core.specs.Starts.{started_world};
ghost use Rattle.plain_core.specs.Reports.{reply_line, happened_of, run_from, report_of, rehearsal_of};
ghost use Rattle.plain_core.specs.Rehearsed.{Happens, GivesRun, GivesReport};

use crate::reply::Reply;
use crate::tables::write_tables;
use crate::world::World;
use dh_base::{List, NoMemory};
use plain_script::{Declarations, Numbered, Script, read_script};
use script_lines::{ScriptHalt, ScriptRule};
use std::alloc::Global;
use std::fmt::Write;

/// Writes the line of an event: the number of its line in the script, and the reply.
fn write_reply(line: u32, reply: &Reply, out: &mut String) -> Result<(), NoMemory>
    ensures { OnOk result (string_bytes out.new
        ≡ string_bytes out.old ++ reply_line line reply.now) }
{
    write!(out, "{line} {reply}\n")?;
    Ok(())
}

/// Lets an event happen, and writes its line.
fn happen(
    alloc: Global,
    declarations: &Declarations,
    happened: &Numbered,
    world: &mut World,
    out: &mut String,
) -> Result<(), ScriptHalt>
    requires { AreWithin (greatest_turn - 1) world.old.ledgers }
    ensures { Happens result (string_bytes out.old) (string_bytes out.new) world.new
        (happened_of declarations.now world.old happened.now) }
{
    let line = happened.line;
    if world.is_out_of_range(&happened.event) {
        return Err(ScriptHalt::Refused {
            line,
            rule: ScriptRule::OutOfRange,
        });
    }
    match world.step(alloc, declarations, &happened.event) {
        Ok(reply) => Ok(write_reply(line, &reply, out)?),
        Err(error) => Err(ScriptHalt::from(error)),
    }
}

/// Lets the events of the script happen, and writes a line for each.
fn run(alloc: Global, script: &Script, out: &mut String) -> Result<World, ScriptHalt>
    requires few { length script.now.events < greatest_turn }
    requires empty { string_bytes out.old ≡ [] }
    ensures { GivesRun result (string_bytes out.new)
        (run_from script.now.declarations (started_world script.now.declarations)
        script.now.events) }
{
    let mut world = World::start(alloc, &script.declarations)?;
    for happened in script.events.as_slice() {
        happen(alloc, &script.declarations, happened, &mut world, out)?;
    }
    Ok(world)
}

/// The report of a script that was read.
fn report(alloc: Global, script: &Script) -> Result<List<u8>, ScriptHalt>
    requires { length script.now.events < greatest_turn }
    ensures { GivesReport result (report_of (script_told script.now)) }
{
    let mut text = String::new(alloc);
    let world = run(alloc, script, &mut text)?;
    write_tables(alloc, &script.declarations, &world, &mut text)?;
    Ok(List::from_vec(text.into_bytes()))
}

/// Rehearses a plain script: the whole report, or the line that is refused. This is the first line
/// that breaks a rule of the reading, and only where there is none the first event whose numbers
/// are out of range.
pub fn rehearse_plain(alloc: Global, script: &[u8]) -> Result<List<u8>, ScriptHalt>
    ensures { GivesReport result (rehearsal_of script.now) }
{
    let script = read_script(alloc, script)?;
    report(alloc, &script)
}
