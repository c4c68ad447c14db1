//! Which records a log takes.

ghost use Rattle.std.specs.Prelude.{◌≡◌, ◌≤◌, ◌<◌, ◌+◌, ◌^◌, ◌++◌, ◌∷◌, [], None, Some, Ok, Err, length, OnOk, IfOk, IfErr};
ghost use Rattle.dh_base.specs.Limits.{most_parties};
ghost use Rattle.vote_log.specs.Entry.{IsInRange};
ghost use Rattle.vote_log.specs.Admission.{add_refusal, votable_of, vote_refusal};
ghost use Rattle.vote_log.specs.Log.{IsKept};
ghost use Rattle.vote_log.specs.Tallies.{IsSmall, place_in, votable_in, start_refusal_in, refusal_in};

use crate::kind::Kind;
use crate::log_fault::LogFault;
use crate::log_record::LogRecord;
use crate::tally::Tally;
use dh_base::Id;

/// The account of an index that no party has.
const NO_ACCOUNT: Id = Id([0; 32]);

/// How many parties may vote on the deal of this tally.
pub fn votable_by(tally: &Option<Tally>) -> Result<u16, LogFault>
    ensures { result ≡ votable_in tally.now }
{
    let Some(tally) = tally else {
        return Err(LogFault::NotStarted);
    };
    match tally.decision {
        Some(decision) => Err(LogFault::Decided {
            at: decision.at,
            outcome: decision.outcome,
        }),
        None => Ok(tally.parties),
    }
}

/// Why a start is refused.
fn start_refusal(
    tally: &Option<Tally>,
    len: u32,
    owed: u32,
    limit: u32,
    parties: u16,
) -> Option<LogFault>
    ensures { result ≡ start_refusal_in tally.now len owed limit parties }
{
    if let Some(tally) = tally {
        return Some(LogFault::StartedAlready { at: tally.at });
    }
    let needed = u64::from(len) + u64::from(owed) + 1 + u64::from(parties);
    (u64::from(limit) < needed).then_some(LogFault::LogFull { len, owed })
}

/// Where the index has committed.
fn commit_place(tally: &Option<Tally>, index: u16) -> Option<u32>
    requires { index < most_parties }
    ensures { result ≡ place_in tally.now index }
{
    match tally {
        Some(tally) => tally.committed[index as usize],
        None => None,
    }
}

/// Why a vote is refused, on a deal with that many parties, after an earlier commit of its index.
fn vote_refusal(
    votable: Result<u16, LogFault>,
    index: u16,
    earlier: Option<u32>,
) -> Option<LogFault>
    ensures { result ≡ vote_refusal votable index earlier }
{
    match votable {
        Err(fault) => Some(fault),
        Ok(parties) if parties <= index => Some(LogFault::NotAParty {
            account: NO_ACCOUNT,
        }),
        Ok(_) => earlier.map(|at| LogFault::VotedAlready { at }),
    }
}

/// Why a record is refused, by the tally of its deal.
pub fn refusal(
    tally: &Option<Tally>,
    len: u32,
    owed: u32,
    limit: u32,
    rec: &LogRecord,
) -> Option<LogFault>
    ensures { result ≡ refusal_in tally.now len owed limit rec.now }
{
    let num = rec.num;
    match rec.kind {
        Kind::Start => start_refusal(tally, len, owed, limit, num),
        Kind::Commit => vote_refusal(votable_by(tally), num, commit_place(tally, num)),
        Kind::Abort => vote_refusal(votable_by(tally), num, None),
    }
}
