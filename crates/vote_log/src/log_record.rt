//! The records of a log.

ghost use Rattle.std.specs.Prelude.{◌≡◌, ◌≤◌, ◌<◌};
ghost use Rattle.dh_base.specs.Limits.{most_parties};
ghost use Rattle.vote_log.specs.Voting.{vote_kind};

use crate::kind::Kind;
use dh_base::{Id, Outcome};
use std::marker::Model;

/// A record of a log. For a start `num` is the number of parties, 2 to 16; for a vote it is the
/// index of the party, 0 to 15.
#[derive(Clone, Copy, Debug, PartialEq, Eq)]
pub struct LogRecord {
    pub kind: Kind,
    pub num: u16,
    pub deal: Id,
}

impl Model for LogRecord {
    ghost use Rattle.vote_log.specs.Entry.{Entry, IsInRange};

    ghost Value = { Entry };

    ghost view = { λ r. record { kind = r.kind; num = r.num; deal = r.deal } };

    ghost invariant = { λ r. IsInRange r.kind r.num };

    ghost inverse = { λ e. record { kind = e.kind; num = e.num; deal = e.deal } };
}

impl LogRecord {
    /// The start of a deal of that many parties.
    pub fn start(parties: u16, deal: Id) -> LogRecord
        requires several { 2 ≤ parties }
        requires few { parties ≤ most_parties }
        ensures { result ≡ record { kind = Kind.Start; num = parties; deal = deal } }
    {
        LogRecord {
            kind: Kind::Start,
            num: parties,
            deal,
        }
    }

    /// The vote of the party with that index.
    pub fn vote(choice: Outcome, index: u16, deal: Id) -> LogRecord
        requires { index < most_parties }
        ensures { result ≡ record { kind = vote_kind choice; num = index; deal = deal } }
    {
        let kind = match choice {
            Outcome::Commit => Kind::Commit,
            Outcome::Abort => Kind::Abort,
        };
        LogRecord {
            kind,
            num: index,
            deal,
        }
    }
}
