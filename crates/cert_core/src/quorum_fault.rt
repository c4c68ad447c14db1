//! Why signatures are no quorum.

use dh_base::refusal::{number, write_refusal};
use dh_base::{Refusal, Telling};
use key_ring::EnvFault;
use std::fmt;

/// Why signatures are no quorum: what is wrong with the first one at fault, or that there are too
/// few.
#[derive(Clone, Copy, Debug, PartialEq, Eq)]
pub enum QuorumFault {
    /// The set has no seat of that number.
    SeatOutside { seat: u16 },
    /// An earlier signature is of the same seat.
    SeatTwice { seat: u16 },
    /// The seat's envelope says nothing.
    BadEnvelope { seat: u16, fault: EnvFault },
    /// The envelope is of another account than the seat's.
    NotItsRing { seat: u16 },
    /// The envelope says another text.
    OtherText { seat: u16 },
    /// Fewer seats say the text than a quorum has.
    TooFew { counted: u16, needed: u16 },
}

impl Refusal for QuorumFault {
    ghost use Rattle.cert_core.specs.QuorumFaults.{quorum_fault_told};

    ghost told = { quorum_fault_told };

    fn telling(&self, level: usize) -> Option<Telling> {
        match self {
            QuorumFault::SeatOutside { seat } => {
                Telling::at(level, 1, "SeatOutside", &[number("seat", u64::from(*seat))])
            }
            QuorumFault::SeatTwice { seat } => {
                Telling::at(level, 2, "SeatTwice", &[number("seat", u64::from(*seat))])
            }
            QuorumFault::BadEnvelope { seat, fault } => {
                let seat = number("seat", u64::from(*seat));
                Telling::holding(level, 3, "BadEnvelope", &[seat], fault)
            }
            QuorumFault::NotItsRing { seat } => {
                Telling::at(level, 4, "NotItsRing", &[number("seat", u64::from(*seat))])
            }
            QuorumFault::OtherText { seat } => {
                Telling::at(level, 5, "OtherText", &[number("seat", u64::from(*seat))])
            }
            QuorumFault::TooFew { counted, needed } => {
                let counted = number("counted", u64::from(*counted));
                let needed = number("needed", u64::from(*needed));
                Telling::at(level, 6, "TooFew", &[counted, needed])
            }
        }
    }
}

impl fmt::Display for QuorumFault {
    ghost use Rattle.std.specs.Prelude.{Some};
    ghost use Rattle.dh_base.specs.Refusals.{refusal_text};
    ghost use Rattle.cert_core.specs.QuorumFaults.{quorum_fault_told};

    ghost output = { λ fault. Some (refusal_text (quorum_fault_told fault)) };

    fn fmt<W: fmt::Write>(&self, f: &mut fmt::Formatter<W>) -> fmt::Result {
        write_refusal(self, f)
    }
}
