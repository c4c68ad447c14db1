//! Why a script is not read.

use crate::rule::ScriptRule;
use dh_base::NoMemory;

/// Why a script is not read.
#[derive(Clone, Copy, Debug, PartialEq, Eq)]
pub enum ScriptHalt {
    /// The line breaks the rule. Lines count from 1; line 0 is the script as a whole.
    Refused { line: u32, rule: ScriptRule },
    NoMemory,
}

impl From<NoMemory> for ScriptHalt {
    ghost use Rattle.std.specs.Prelude.{◌≡◌};
    ghost use Rattle.script_lines.specs.declared.halt.ScriptHalt.TheVariants.{NoMemory as OutOfMemory};

    ghost from_gives = { λ _ halt. halt ≡ OutOfMemory };

    fn from(_error: NoMemory) -> ScriptHalt {
        ScriptHalt::NoMemory
    }
}
