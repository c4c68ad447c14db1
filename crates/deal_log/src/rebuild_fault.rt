//! Why records and texts make no log.

use dh_base::refusal::{number, write_refusal};
use dh_base::{NoMemory as OutOfMemory, Refusal, Telling};
use std::fmt;

/// Why records and texts make no log.
#[derive(Clone, Copy, Debug, PartialEq, Eq)]
pub enum RebuildFault {
    /// The log refuses the record at that place behind those before it.
    BadRecords { at: u32 },
    /// The deal that is started there can still be voted on, and none of the texts is its.
    TextMissing { at: u32 },
    /// An allocation was refused.
    NoMemory,
}

impl From<OutOfMemory> for RebuildFault {
    ghost use Rattle.std.specs.Prelude.{◌≡◌};
    ghost use Rattle.deal_log.specs.declared.rebuild_fault.RebuildFault.TheVariants.{NoMemory};

    ghost from_gives = { λ _ fault. fault ≡ NoMemory };

    fn from(_error: OutOfMemory) -> RebuildFault {
        RebuildFault::NoMemory
    }
}

impl Refusal for RebuildFault {
    ghost use Rattle.deal_log.specs.AdmitFaults.{rebuild_fault_told};

    ghost told = { rebuild_fault_told };

    fn telling(&self, level: usize) -> Option<Telling> {
        match self {
            RebuildFault::BadRecords { at } => {
                Telling::at(level, 1, "BadRecords", &[number("at", u64::from(*at))])
            }
            RebuildFault::TextMissing { at } => {
                Telling::at(level, 2, "TextMissing", &[number("at", u64::from(*at))])
            }
            RebuildFault::NoMemory => Telling::at(level, 3, "NoMemory", &[]),
        }
    }
}

impl fmt::Display for RebuildFault {
    ghost use Rattle.std.specs.Prelude.{Some};
    ghost use Rattle.dh_base.specs.Refusals.{refusal_text};
    ghost use Rattle.deal_log.specs.AdmitFaults.{rebuild_fault_told};

    ghost output = { λ fault. Some (refusal_text (rebuild_fault_told fault)) };

    fn fmt<W: fmt::Write>(&self, f: &mut fmt::Formatter<W>) -> fmt::Result {
        write_refusal(self, f)
    }
}
