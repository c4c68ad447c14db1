//! A plain script that was read.

ghost use Rattle.std.specs.Prelude.{◌≡◌, ◌<◌, ◌≤◌, ◌-◌, ◌^◌, length, IfOk};
ghost use Rattle.plain_script.specs.Reading.{reading_of};
ghost use Rattle.plain_script.specs.Answers.{Answers, whole_of};

use crate::declarations::Declarations;
use crate::numbered::Numbered;
use crate::reader::Reader;
use dh_base::List;
use line_text::Lines;
use script_lines::{MOST_BYTES, Place, ScriptHalt, ScriptRule};
use std::alloc::Global;

/// What a plain script declares, and what happens in it, in the order of its lines.
#[derive(Drop)]
pub struct Script {
    pub declarations: Declarations,
    pub events: List<Numbered>,
}

/// The script of the lines that were read, or the want of a line `begin`.
fn whole(reader: Reader) -> Result<Script, ScriptHalt>
    requires small { reader.number < 2 ^ 32 - 1 }
    requires few { length reader.events ≤ reader.number }
    ensures value { Answers result (whole_of reader) }
    ensures few { IfOk result (λ script. length script.events < 2 ^ 32 - 1) }
{
    match reader.place() {
        Place::Declarations => Err(ScriptHalt::Refused {
            line: reader.number() + 1,
            rule: ScriptRule::BadLine,
        }),
        _ => {
            let (declarations, events) = reader.into_parts();
            Ok(Script {
                declarations,
                events: List::from_vec(events),
            })
        }
    }
}

/// Reads a plain script: what it says, or the first line that breaks a rule before anything
/// happens.
pub fn read_script(alloc: Global, script: &[u8]) -> Result<Script, ScriptHalt>
    ensures value { Answers result (reading_of script.now) }
    ensures few { IfOk result (λ told. length told.events < 2 ^ 32 - 1) }
{
    if script.len() > MOST_BYTES {
        return Err(ScriptHalt::Refused {
            line: 0,
            rule: ScriptRule::TooLarge,
        });
    }
    let mut reader = Reader::new(alloc);
    let mut lines = Lines::new(script);
    while let Some(line) = lines.next_line() {
        if let Some(rule) = reader.read_line(alloc, &line)? {
            return Err(ScriptHalt::Refused {
                line: reader.number(),
                rule,
            });
        }
    }
    whole(reader)
}
