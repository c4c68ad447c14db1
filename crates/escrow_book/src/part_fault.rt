//! What is refused where a part of a book is made.

use dh_base::refusal::{number, write_refusal};
use dh_base::{Refusal, Telling};
use std::alloc::{AllocError, AllocFailed};
use std::fmt;

/// A refusal of the rows of a part.
#[derive(Clone, Copy, Debug, PartialEq, Eq)]
pub enum PartFault {
    /// The row repeats an earlier one, or says what no book has.
    BadRows { row: u32 },
    /// With the row there is more of its asset than a book has.
    SumTooLarge { row: u32 },
    /// An allocation was refused.
    NoMemory,
}

impl From<AllocError> for PartFault {
    ghost use Rattle.std.specs.Prelude.{◌≡◌};
    ghost use Rattle.escrow_book.specs.declared.part_fault.PartFault.TheVariants.{NoMemory};

    ghost from_gives = { λ _ fault. fault ≡ NoMemory };

    fn from(_error: AllocError) -> PartFault {
        PartFault::NoMemory
    }
}

impl<T: Drop> From<AllocFailed<T>> for PartFault {
    ghost use Rattle.std.specs.Prelude.{◌≡◌};
    ghost use Rattle.escrow_book.specs.declared.part_fault.PartFault.TheVariants.{NoMemory};

    ghost from_gives = { λ _ fault. fault ≡ NoMemory };

    fn from(_error: AllocFailed<T>) -> PartFault {
        PartFault::NoMemory
    }
}

impl Refusal for PartFault {
    ghost use Rattle.escrow_book.specs.PartFaults.{part_fault_told};

    ghost told = { part_fault_told };

    fn telling(&self, level: usize) -> Option<Telling> {
        match self {
            PartFault::BadRows { row } => {
                Telling::at(level, 1, "BadRows", &[number("row", u64::from(*row))])
            }
            PartFault::SumTooLarge { row } => {
                Telling::at(level, 2, "SumTooLarge", &[number("row", u64::from(*row))])
            }
            PartFault::NoMemory => Telling::at(level, 3, "NoMemory", &[]),
        }
    }
}

impl fmt::Display for PartFault {
    ghost use Rattle.std.specs.Prelude.{Some};
    ghost use Rattle.dh_base.specs.Refusals.{refusal_text};
    ghost use Rattle.escrow_book.specs.PartFaults.{part_fault_told};

    ghost output = { λ fault. Some (refusal_text (part_fault_told fault)) };

    fn fmt<W: fmt::Write>(&self, f: &mut fmt::Formatter<W>) -> fmt::Result {
        write_refusal(self, f)
    }
}
