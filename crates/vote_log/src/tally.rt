//! The count of one deal's votes.

ghost use Rattle.std.specs.Prelude.{◌≡◌, ◌≤◌, ◌<◌, ◌^◌, ◌+◌, ◌-◌, length};
ghost use Rattle.dh_base.specs.Limits.{most_parties};
ghost use Rattle.vote_log.specs.Entry.{IsInRange};
ghost use Rattle.vote_log.specs.Tallies.{StandsFor, IsSmall, all_placed, unplaced, placed_with, tally_after, tally_with, committed_tally, aborted_tally, opened_tally, decided_first, owed_in};

use crate::decision::Decision;
use crate::kind::Kind;
use crate::log_record::LogRecord;
use dh_base::{Id, MOST_PARTIES, Outcome};

/// A started deal: where its first start stands and how many parties it names, where each index
/// committed first, and what is decided.
#[derive(Clone, Copy, Debug)]
pub struct Tally {
    pub at: u32,
    pub parties: u16,
    pub committed: [Option<u32>; MOST_PARTIES],
    pub decision: Option<Decision>,
}

/// Whether each index below the number of parties has a place.
fn all_have_places(committed: &[Option<u32>; MOST_PARTIES], parties: u16) -> bool
    requires { parties ≤ most_parties }
    ensures { result ≡ all_placed committed.now parties }
{
    for index in 0..parties as usize {
        if committed[index].is_none() {
            return false;
        }
    }
    true
}

/// How many indices below the number of parties have no place.
fn without_place(committed: &[Option<u32>; MOST_PARTIES], parties: u16) -> u32
    requires { parties ≤ most_parties }
    ensures value { result ≡ unplaced committed.now parties }
    ensures few { result ≤ parties }
{
    let mut count = 0;
    for index in 0..parties as usize {
        if committed[index].is_none() {
            count += 1;
        }
    }
    count
}

/// The places with that of one more commit. The first place of an index stays.
fn with_place(
    mut committed: [Option<u32>; MOST_PARTIES],
    index: u16,
    place: u32,
) -> [Option<u32>; MOST_PARTIES]
    requires { index < most_parties }
    ensures { result ≡ placed_with committed index place }
{
    if committed[index as usize].is_none() {
        committed[index as usize] = Some(place);
    }
    committed
}

/// The earlier decision, or else that of this place if it decides.
fn first_decision(
    earlier: Option<Decision>,
    decides: bool,
    outcome: Outcome,
    at: u32,
) -> Option<Decision>
    ensures { result ≡ decided_first earlier decides outcome at }
{
    match earlier {
        Some(decision) => Some(decision),
        None => decides.then_some(Decision { outcome, at }),
    }
}

impl Tally {
    /// The tally of a deal that starts there.
    fn opened(at: u32, parties: u16) -> Tally
        ensures { result ≡ opened_tally at parties }
    {
        Tally {
            at,
            parties,
            committed: [None; MOST_PARTIES],
            decision: None,
        }
    }

    /// The tally after a commit by that index.
    fn after_commit(self, index: u16, place: u32) -> Tally
        requires few { self.parties ≤ most_parties }
        requires party { index < most_parties }
        ensures { result ≡ committed_tally self index place }
    {
        let committed = with_place(self.committed, index, place);
        let complete = all_have_places(&committed, self.parties);
        Tally {
            at: self.at,
            parties: self.parties,
            committed,
            decision: first_decision(self.decision, complete, Outcome::Commit, place),
        }
    }

    /// The tally after an abort by that index.
    fn after_abort(self, index: u16, place: u32) -> Tally
        requires { self.parties ≤ most_parties }
        ensures { result ≡ aborted_tally self index place }
    {
        let breaks_off = index < self.parties && !all_have_places(&self.committed, self.parties);
        Tally {
            at: self.at,
            parties: self.parties,
            committed: self.committed,
            decision: first_decision(self.decision, breaks_off, Outcome::Abort, place),
        }
    }
}

/// The tally after a record of its deal.
fn after_record(tally: Option<Tally>, kind: Kind, num: u16, place: u32) -> Option<Tally>
    requires small { IsSmall tally }
    requires ranged { IsInRange kind num }
    ensures { result ≡ tally_with tally kind num place }
{
    match (tally, kind) {
        (None, Kind::Start) => Some(Tally::opened(place, num)),
        (Some(tally), Kind::Commit) => Some(tally.after_commit(num, place)),
        (Some(tally), Kind::Abort) => Some(tally.after_abort(num, place)),
        (tally, _) => tally,
    }
}

/// The tally of a deal after one more record of the log.
pub fn tally_after(tally: Option<Tally>, deal: &Id, rec: &LogRecord, place: u32) -> Option<Tally>
    requires { IsSmall tally }
    ensures value { result ≡ tally_after deal.now tally rec.now place }
    ensures ranged { IsInRange rec.now.kind rec.now.num }
{
    if rec.deal == *deal {
        after_record(tally, rec.kind, rec.num, place)
    } else {
        tally
    }
}

/// The tally of a deal, if the log starts it.
pub fn tally_of(recs: &[LogRecord], deal: &Id) -> Option<Tally>
    requires { length recs.now < 2 ^ 32 }
    ensures { StandsFor recs.now deal.now result }
{
    let mut tally = None;
    for (place, rec) in recs.iter().enumerate() {
        tally = tally_after(tally, deal, rec, place as u32);
    }
    tally
}

/// How many votes the log keeps room for, for the deal of this tally.
fn owed_by(tally: &Option<Tally>) -> u32
    requires { IsSmall tally.now }
    ensures value { result ≡ owed_in tally.now }
    ensures few { result ≤ most_parties }
{
    match tally {
        Some(tally) if tally.decision.is_none() => without_place(&tally.committed, tally.parties),
        _ => 0,
    }
}

/// How many votes the log keeps room for, once one deal's tally is another.
pub fn owed_after(owed: u32, before: &Option<Tally>, after: &Option<Tally>) -> u32
    requires small { IsSmall before.now × IsSmall after.now }
    requires part { owed_in before.now ≤ owed }
    requires fits { owed - owed_in before.now + owed_in after.now < 2 ^ 32 }
    ensures { result ≡ owed - owed_in before.now + owed_in after.now }
{
    owed - owed_by(before) + owed_by(after)
}
