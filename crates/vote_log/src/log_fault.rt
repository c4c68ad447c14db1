//! The refusals of a log.

use dh_base::refusal::{ending, hash, number, write_refusal};
use dh_base::{Id, Outcome, Refusal, Telling};
use std::alloc::AllocFailed;
use std::fmt;

/// Why a log refuses a record.
#[derive(Clone, Copy, Debug, PartialEq, Eq)]
pub enum LogFault {
    /// The deal has no party with that index. The account is all zeros.
    NotAParty { account: Id },
    /// The deal's first start stands there.
    StartedAlready { at: u32 },
    /// The log has that many records and keeps room for that many votes.
    LogFull { len: u32, owed: u32 },
    /// The log has no start of the deal.
    NotStarted,
    /// The deal was decided there.
    Decided { at: u32, outcome: Outcome },
    /// The commit of that index stands there.
    VotedAlready { at: u32 },
    /// An allocation was refused.
    NoMemory,
}

impl<T: Drop> From<AllocFailed<T>> for LogFault {
    ghost use Rattle.std.specs.Prelude.{◌≡◌};
    ghost use Rattle.vote_log.specs.declared.log_fault.LogFault.TheVariants.{NoMemory};

    ghost from_gives = { λ _ fault. fault ≡ NoMemory };

    fn from(_error: AllocFailed<T>) -> LogFault {
        LogFault::NoMemory
    }
}

impl Refusal for LogFault {
    ghost use Rattle.vote_log.specs.LogFaults.{log_fault_told};

    ghost told = { log_fault_told };

    fn telling(&self, level: usize) -> Option<Telling> {
        match self {
            LogFault::NotAParty { account } => {
                Telling::at(level, 5, "NotAParty", &[hash("account", *account)])
            }
            LogFault::StartedAlready { at } => {
                Telling::at(level, 6, "StartedAlready", &[number("at", u64::from(*at))])
            }
            LogFault::LogFull { len, owed } => Telling::at(
                level,
                7,
                "LogFull",
                &[
                    number("len", u64::from(*len)),
                    number("owed", u64::from(*owed)),
                ],
            ),
            LogFault::NotStarted => Telling::at(level, 8, "NotStarted", &[]),
            LogFault::Decided { at, outcome } => Telling::at(
                level,
                9,
                "Decided",
                &[number("at", u64::from(*at)), ending("outcome", *outcome)],
            ),
            LogFault::VotedAlready { at } => {
                Telling::at(level, 10, "VotedAlready", &[number("at", u64::from(*at))])
            }
            LogFault::NoMemory => Telling::at(level, 11, "NoMemory", &[]),
        }
    }
}

impl fmt::Display for LogFault {
    ghost use Rattle.std.specs.Prelude.{Some};
    ghost use Rattle.dh_base.specs.Refusals.{refusal_text};
    ghost use Rattle.vote_log.specs.LogFaults.{log_fault_told};

    ghost output = { λ fault. Some (refusal_text (log_fault_told fault)) };

    fn fmt<W: fmt::Write>(&self, f: &mut fmt::Formatter<W>) -> fmt::Result {
        write_refusal(self, f)
    }
}
