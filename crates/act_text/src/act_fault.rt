//! Why bytes are no act of an office.

use dh_base::refusal::{number, write_refusal};
use dh_base::{BaseFault, NoMemory, Refusal, Telling};
use std::alloc::AllocError;
use std::fmt;

/// Why bytes are no act of an office.
#[derive(Clone, Copy, Debug, PartialEq, Eq)]
pub enum ActFault {
    /// The tag or the kind is none of the office's, or the bytes end within them.
    BadTag,
    /// The bytes end within the field that begins there.
    Short { at: u32 },
    /// The field that begins there is out of range, or no name.
    BadField { at: u32 },
    /// The first byte behind the last field.
    Trailing { at: u32 },
    /// An allocation was refused.
    NoMemory,
}

impl From<BaseFault> for ActFault {
    ghost use Rattle.std.specs.Prelude.{◌≡◌};
    ghost use Rattle.act_text.specs.ActReading.{act_fault_of};

    ghost from_gives = { λ base fault. fault ≡ act_fault_of base };

    fn from(fault: BaseFault) -> ActFault {
        match fault {
            BaseFault::Short { at } => ActFault::Short { at },
            BaseFault::BadName { at } => ActFault::BadField { at },
        }
    }
}

impl From<NoMemory> for ActFault {
    ghost use Rattle.std.specs.Prelude.{◌≡◌};
    ghost use Rattle.act_text.specs.declared.act_fault.ActFault.TheVariants.{NoMemory};

    ghost from_gives = { λ _ fault. fault ≡ NoMemory };

    fn from(_error: NoMemory) -> ActFault {
        ActFault::NoMemory
    }
}

impl From<AllocError> for ActFault {
    ghost use Rattle.std.specs.Prelude.{◌≡◌};
    ghost use Rattle.act_text.specs.declared.act_fault.ActFault.TheVariants.{NoMemory};

    ghost from_gives = { λ _ fault. fault ≡ NoMemory };

    fn from(_error: AllocError) -> ActFault {
        ActFault::NoMemory
    }
}

impl Refusal for ActFault {
    ghost use Rattle.act_text.specs.ActFaults.{act_fault_told};

    ghost told = { act_fault_told };

    fn telling(&self, level: usize) -> Option<Telling> {
        match self {
            ActFault::BadTag => Telling::at(level, 1, "BadTag", &[]),
            ActFault::Short { at } => {
                Telling::at(level, 2, "Short", &[number("at", u64::from(*at))])
            }
            ActFault::BadField { at } => {
                Telling::at(level, 3, "BadField", &[number("at", u64::from(*at))])
            }
            ActFault::Trailing { at } => {
                Telling::at(level, 4, "Trailing", &[number("at", u64::from(*at))])
            }
            ActFault::NoMemory => Telling::at(level, 5, "NoMemory", &[]),
        }
    }
}

impl fmt::Display for ActFault {
    ghost use Rattle.std.specs.Prelude.{Some};
    ghost use Rattle.dh_base.specs.Refusals.{refusal_text};
    ghost use Rattle.act_text.specs.ActFaults.{act_fault_told};

    ghost output = { λ fault. Some (refusal_text (act_fault_told fault)) };

    fn fmt<W: fmt::Write>(&self, f: &mut fmt::Formatter<W>) -> fmt::Result {
        write_refusal(self, f)
    }
}
