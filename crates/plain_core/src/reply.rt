//! What an event of a plain script is answered.

use crate::act_refusal::ActRefusal;
use crate::claim_refusal::ClaimRefusal;
use crate::log_refusal::LogRefusal;
use dh_base::Outcome;
use std::fmt;

/// What an event of a plain script is answered.
#[derive(Clone, Copy)]
pub enum Reply {
    /// The act was accepted, as the entry with this number of the ledger's history, from 1.
    Done { at: u64 },
    /// The entry stands at this place of the log, from 0.
    Entered { at: u32 },
    /// The claim settled the deal.
    Settled { outcome: Outcome },
    /// The deal was settled before.
    Already { outcome: Outcome },
    RefusedAct(ActRefusal),
    RefusedEntry(LogRefusal),
    RefusedClaim(ClaimRefusal),
}

impl fmt::Display for Reply {
    ghost use Rattle.std.specs.Prelude.{Some};
    ghost use Rattle.plain_core.specs.Replies.{reply_text};

    ghost output = { λ reply. Some (reply_text reply) };

    fn fmt<W: fmt::Write>(&self, f: &mut fmt::Formatter<W>) -> fmt::Result {
        match self {
            Reply::Done { at } => write!(f, "done {at}"),
            Reply::Entered { at } => write!(f, "entered {at}"),
            Reply::Settled { outcome } => write!(f, "settled {outcome}"),
            Reply::Already { outcome } => write!(f, "already {outcome}"),
            Reply::RefusedAct(refusal) => write!(f, "refused {refusal}"),
            Reply::RefusedEntry(refusal) => write!(f, "refused {refusal}"),
            Reply::RefusedClaim(refusal) => write!(f, "refused {refusal}"),
        }
    }
}
