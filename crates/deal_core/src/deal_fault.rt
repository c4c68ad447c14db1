//! What is wrong with a deal's text.

ghost use Rattle.std.specs.Prelude.{◌≡◌, slice_get};
ghost use Rattle.dh_base.specs.Refusals.{option_telling_told};
ghost use Rattle.deal_core.specs.DealFaults.{line_told};

use dh_base::refusal::{number, write_refusal};
use dh_base::{NoMemory as OutOfMemory, Refusal, Telling};
use std::fmt;

/// What is wrong with a deal's text. Lines count from 1.
#[derive(Clone, Copy, Debug, PartialEq, Eq)]
pub enum DealFault {
    /// The line has not the form that may stand there, or none stands where one must.
    BadLine { line: u32 },
    /// The line repeats the name or the account of a party.
    PartyTwice { line: u32 },
    /// A name of the step is no party's.
    UnknownParty { line: u32 },
    /// The step leads from a party to itself.
    SelfStep { line: u32 },
    /// The step moves nothing.
    ZeroAmount { line: u32 },
    /// It is the 17th party, the 65th step, or a step on a 9th ledger.
    TooMany { line: u32 },
    /// The steps so far move more than 2^63 - 1 of the asset on the ledger.
    SumTooLarge { line: u32 },
    /// This is the first party that isn't reached from the first one, or doesn't reach it.
    NotConnected { party: u16 },
    /// An allocation was refused.
    NoMemory,
}

impl From<OutOfMemory> for DealFault {
    ghost use Rattle.std.specs.Prelude.{◌≡◌};
    ghost use Rattle.deal_core.specs.declared.deal_fault.DealFault.TheVariants.{NoMemory};

    ghost from_gives = { λ _ fault. fault ≡ NoMemory };

    fn from(_error: OutOfMemory) -> DealFault {
        DealFault::NoMemory
    }
}

/// What a fault tells whose one field is the line.
fn at_line(level: usize, fault_number: u16, name: &'static str, line: u32) -> Option<Telling>
    ensures { option_telling_told result ≡ slice_get (line_told fault_number name.now line) level }
{
    Telling::at(
        level,
        fault_number,
        name,
        &[number("line", u64::from(line))],
    )
}

impl Refusal for DealFault {
    ghost use Rattle.deal_core.specs.DealFaults.{deal_fault_told};

    ghost told = { deal_fault_told };

    fn telling(&self, level: usize) -> Option<Telling> {
        match self {
            DealFault::BadLine { line } => at_line(level, 1, "BadLine", *line),
            DealFault::PartyTwice { line } => at_line(level, 2, "PartyTwice", *line),
            DealFault::UnknownParty { line } => at_line(level, 3, "UnknownParty", *line),
            DealFault::SelfStep { line } => at_line(level, 4, "SelfStep", *line),
            DealFault::ZeroAmount { line } => at_line(level, 5, "ZeroAmount", *line),
            DealFault::TooMany { line } => at_line(level, 6, "TooMany", *line),
            DealFault::SumTooLarge { line } => at_line(level, 7, "SumTooLarge", *line),
            DealFault::NotConnected { party } => {
                Telling::at(
                    level,
                    8,
                    "NotConnected",
                    &[number("party", u64::from(*party))],
                )
            }
            DealFault::NoMemory => Telling::at(level, 9, "NoMemory", &[]),
        }
    }
}

impl fmt::Display for DealFault {
    ghost use Rattle.std.specs.Prelude.{Some};
    ghost use Rattle.dh_base.specs.Refusals.{refusal_text};
    ghost use Rattle.deal_core.specs.DealFaults.{deal_fault_told};

    ghost output = { λ fault. Some (refusal_text (deal_fault_told fault)) };

    fn fmt<W: fmt::Write>(&self, f: &mut fmt::Formatter<W>) -> fmt::Result {
        write_refusal(self, f)
    }
}
