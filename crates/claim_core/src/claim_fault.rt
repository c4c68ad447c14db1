//! Why a claim certifies nothing.

use crate::link_fault::LinkFault;
use cert_core::QuorumFault;
use dh_base::refusal::{hash, number, write_refusal};
use dh_base::{Id, Refusal, Telling};
use std::fmt;

/// The first broken part of a claim.
#[derive(Clone, Copy, Debug, PartialEq, Eq)]
pub enum ClaimFault {
    /// The link of that number, from 0, doesn't lead on.
    BadChain { link: u16, fault: LinkFault },
    /// The records have another head than the claim names.
    WrongHead { computed: Id, named: Id },
    /// The signatures are no quorum of the last set.
    BadQuorum { fault: QuorumFault },
}

impl Refusal for ClaimFault {
    ghost use Rattle.claim_core.specs.ClaimFaults.{claim_fault_told};

    ghost told = { claim_fault_told };

    fn telling(&self, level: usize) -> Option<Telling> {
        match self {
            ClaimFault::BadChain { link, fault } => {
                let link = number("link", u64::from(*link));
                Telling::holding(level, 1, "BadChain", &[link], fault)
            }
            ClaimFault::WrongHead { computed, named } => {
                let computed = hash("computed", *computed);
                Telling::at(level, 2, "WrongHead", &[computed, hash("named", *named)])
            }
            ClaimFault::BadQuorum { fault } => Telling::holding(level, 3, "BadQuorum", &[], fault),
        }
    }
}

impl fmt::Display for ClaimFault {
    ghost use Rattle.std.specs.Prelude.{Some};
    ghost use Rattle.dh_base.specs.Refusals.{refusal_text};
    ghost use Rattle.claim_core.specs.ClaimFaults.{claim_fault_told};

    ghost output = { λ fault. Some (refusal_text (claim_fault_told fault)) };

    fn fmt<W: fmt::Write>(&self, f: &mut fmt::Formatter<W>) -> fmt::Result {
        write_refusal(self, f)
    }
}
