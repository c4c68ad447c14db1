//! What is wrong with bytes that should be a value of this crate.

use crate::refusal::{Refusal, Telling, number, write_refusal};
use std::fmt;

/// What is wrong with bytes that should be a value of this crate.
#[derive(Clone, Copy, Debug, PartialEq, Eq)]
pub enum BaseFault {
    /// The bytes end within the field that begins at `at`.
    Short { at: u32 },
    /// No name stands there. `at` is the first place at which no name goes on, and for a field the
    /// place where the field begins.
    BadName { at: u32 },
}

impl Refusal for BaseFault {
    ghost use Rattle.dh_base.specs.BaseFaults.{base_fault_told};

    ghost told = { base_fault_told };

    fn telling(&self, level: usize) -> Option<Telling> {
        match self {
            BaseFault::Short { at } => {
                Telling::at(level, 1, "Short", &[number("at", u64::from(*at))])
            }
            BaseFault::BadName { at } => {
                Telling::at(level, 2, "BadName", &[number("at", u64::from(*at))])
            }
        }
    }
}

impl fmt::Display for BaseFault {
    ghost use Rattle.std.specs.Prelude.{Some};
    ghost use Rattle.dh_base.specs.Refusals.{refusal_text};
    ghost use Rattle.dh_base.specs.BaseFaults.{base_fault_told};

    ghost output = { λ fault. Some (refusal_text (base_fault_told fault)) };

    fn fmt<W: fmt::Write>(&self, f: &mut fmt::Formatter<W>) -> fmt::Result {
        write_refusal(self, f)
    }
}
