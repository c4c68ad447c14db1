//! Why the log of a plain script refuses an entry.

use dh_base::refusal::{called, write_refusal};
use dh_base::{Name, Refusal, Telling};
use std::fmt;
use vote_log::LogFault;

/// Why the log of a plain script refuses an entry. The numbers are those of a log's refusals.
#[derive(Clone, Copy)]
pub enum LogRefusal {
    /// The party is none of the deal.
    NotAParty { account: Name },
    /// The log's own refusal.
    Fault(LogFault),
}

impl Refusal for LogRefusal {
    ghost use Rattle.plain_core.specs.Replies.{log_refusal_told};

    ghost told = { log_refusal_told };

    fn telling(&self, level: usize) -> Option<Telling> {
        match self {
            LogRefusal::NotAParty { account } => {
                Telling::at(level, 5, "NotAParty", &[called("account", *account)])
            }
            LogRefusal::Fault(fault) => fault.telling(level),
        }
    }
}

impl fmt::Display for LogRefusal {
    ghost use Rattle.std.specs.Prelude.{Some};
    ghost use Rattle.dh_base.specs.Refusals.{refusal_text};
    ghost use Rattle.plain_core.specs.Replies.{log_refusal_told};

    ghost output = { λ refusal. Some (refusal_text (log_refusal_told refusal)) };

    fn fmt<W: fmt::Write>(&self, f: &mut fmt::Formatter<W>) -> fmt::Result {
        write_refusal(self, f)
    }
}
