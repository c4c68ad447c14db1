//! Why a plain ledger refuses a claim.

use dh_base::refusal::{number, write_refusal};
use dh_base::{Refusal, Telling};
use std::fmt;

/// Why a plain ledger refuses a claim. The numbers are those of a ledger's refusals of claims.
#[derive(Clone, Copy)]
pub enum ClaimRefusal {
    /// The deal isn't registered on the ledger.
    UnknownDeal,
    /// The first `len` records of the log don't decide the deal.
    Undecided { len: u32 },
}

impl Refusal for ClaimRefusal {
    ghost use Rattle.plain_core.specs.Replies.{claim_refusal_told};

    ghost told = { claim_refusal_told };

    fn telling(&self, level: usize) -> Option<Telling> {
        match self {
            ClaimRefusal::UnknownDeal => Telling::at(level, 1, "UnknownDeal", &[]),
            ClaimRefusal::Undecided { len } => {
                Telling::at(level, 3, "Undecided", &[number("len", u64::from(*len))])
            }
        }
    }
}

impl fmt::Display for ClaimRefusal {
    ghost use Rattle.std.specs.Prelude.{Some};
    ghost use Rattle.dh_base.specs.Refusals.{refusal_text};
    ghost use Rattle.plain_core.specs.Replies.{claim_refusal_told};

    ghost output = { λ refusal. Some (refusal_text (claim_refusal_told refusal)) };

    fn fmt<W: fmt::Write>(&self, f: &mut fmt::Formatter<W>) -> fmt::Result {
        write_refusal(self, f)
    }
}
