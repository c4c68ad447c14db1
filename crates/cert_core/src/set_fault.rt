//! Why bytes are no validator set.

use dh_base::refusal::{number, write_refusal};
use dh_base::{Refusal, Telling};
use std::fmt;

/// Why bytes are no validator set.
#[derive(Clone, Copy, Debug, PartialEq, Eq)]
pub enum SetFault {
    /// The bytes don't begin with the tag.
    BadTag,
    /// More than 5 seats are to be let deviate.
    BadF { f: u16 },
    /// There are not as many bytes as the number of seats wants.
    BadLength { len: u32 },
    /// The least seat whose account an earlier seat has.
    SeatTwice { seat: u16 },
}

impl Refusal for SetFault {
    ghost use Rattle.cert_core.specs.SetFaults.{set_fault_told};

    ghost told = { set_fault_told };

    fn telling(&self, level: usize) -> Option<Telling> {
        match self {
            SetFault::BadTag => Telling::at(level, 1, "BadTag", &[]),
            SetFault::BadF { f } => Telling::at(level, 2, "BadF", &[number("f", u64::from(*f))]),
            SetFault::BadLength { len } => {
                Telling::at(level, 3, "BadLength", &[number("len", u64::from(*len))])
            }
            SetFault::SeatTwice { seat } => {
                Telling::at(level, 4, "SeatTwice", &[number("seat", u64::from(*seat))])
            }
        }
    }
}

impl fmt::Display for SetFault {
    ghost use Rattle.std.specs.Prelude.{Some};
    ghost use Rattle.dh_base.specs.Refusals.{refusal_text};
    ghost use Rattle.cert_core.specs.SetFaults.{set_fault_told};

    ghost output = { λ fault. Some (refusal_text (set_fault_told fault)) };

    fn fmt<W: fmt::Write>(&self, f: &mut fmt::Formatter<W>) -> fmt::Result {
        write_refusal(self, f)
    }
}
