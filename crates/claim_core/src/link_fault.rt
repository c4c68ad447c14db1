//! Why a link doesn't lead on.

use cert_core::{QuorumFault, SetFault};
use dh_base::refusal::{number, write_refusal};
use dh_base::{Refusal, Telling};
use std::fmt;

/// Why a link doesn't lead to a next set.
#[derive(Clone, Copy, Debug, PartialEq, Eq)]
pub enum LinkFault {
    /// The text is that of no set.
    BadSet { fault: SetFault },
    /// The epoch of the set isn't the next.
    WrongEpoch { expected: u32, got: u32 },
    /// There aren't so many records, or they have another head.
    HeadNotOnPath { len: u32 },
    /// The signatures are no quorum of the set before.
    BadQuorum { fault: QuorumFault },
}

impl Refusal for LinkFault {
    ghost use Rattle.claim_core.specs.ClaimFaults.{link_fault_told};

    ghost told = { link_fault_told };

    fn telling(&self, level: usize) -> Option<Telling> {
        match self {
            LinkFault::BadSet { fault } => Telling::holding(level, 1, "BadSet", &[], fault),
            LinkFault::WrongEpoch { expected, got } => {
                let expected = number("expected", u64::from(*expected));
                let got = number("got", u64::from(*got));
                Telling::at(level, 2, "WrongEpoch", &[expected, got])
            }
            LinkFault::HeadNotOnPath { len } => {
                Telling::at(level, 3, "HeadNotOnPath", &[number("len", u64::from(*len))])
            }
            LinkFault::BadQuorum { fault } => Telling::holding(level, 4, "BadQuorum", &[], fault),
        }
    }
}

impl fmt::Display for LinkFault {
    ghost use Rattle.std.specs.Prelude.{Some};
    ghost use Rattle.dh_base.specs.Refusals.{refusal_text};
    ghost use Rattle.claim_core.specs.ClaimFaults.{link_fault_told};

    ghost output = { λ fault. Some (refusal_text (link_fault_told fault)) };

    fn fmt<W: fmt::Write>(&self, f: &mut fmt::Formatter<W>) -> fmt::Result {
        write_refusal(self, f)
    }
}
