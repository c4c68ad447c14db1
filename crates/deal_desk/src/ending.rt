//! How a run ends.

ghost use Rattle.std.specs.Prelude.{◌≡◌};
ghost use Rattle.deal_desk.specs.Endings.{status_of};

use deal_core::DealFault;
use script_lines::ScriptRule;

/// How a run ends.
#[derive(Clone, Copy, Debug, PartialEq, Eq)]
pub enum Ending {
    /// The command did all its work: the report or the clearing is written.
    Done,
    /// The words are none that the program knows, and it told those that it does.
    Usage,
    /// The line of the input breaks the rule, which is told. Line 0 is the input as a whole.
    Refused { line: u32, rule: ScriptRule },
    /// The input is no deal's text, for a fault that is told.
    RefusedDeal { fault: DealFault },
    /// The source failed. Nothing is written.
    InputFailed,
    /// The sink failed.
    OutputFailed,
    /// Memory ran out. Nothing is written.
    NoMemory,
}

impl Ending {
    /// The program's exit status.
    pub fn status(self) -> u8
        ensures { result ≡ status_of self }
    {
        match self {
            Ending::Done => 0,
            Ending::Usage => 1,
            Ending::Refused { .. } | Ending::RefusedDeal { .. } => 2,
            Ending::InputFailed => 3,
            Ending::OutputFailed => 4,
            Ending::NoMemory => 7,
        }
    }
}
