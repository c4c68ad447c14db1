//! Logs worked out by hand. A test makes a course of calls and compares the answers, a line each.

mod texts;

ghost use Rattle.std.specs.Prelude.{◌≤◌, ◌<◌};
ghost use Rattle.dh_base.specs.Limits.{most_parties};

use dh_base::{Id, Outcome};
use std::alloc::Global;
use std::test::Fail;
use vote_log::*;

const DEAL: Id = Id([7; 32]);

const OTHER: Id = Id([8; 32]);

/// A deal that no log here has.
const UNKNOWN: Id = Id([9; 32]);

fn start(parties: u16) -> LogRecord
    requires several { 2 ≤ parties }
    requires few { parties ≤ most_parties }
{
    LogRecord::start(parties, DEAL)
}

fn commit(index: u16) -> LogRecord
    requires { index < most_parties }
{
    LogRecord::vote(Outcome::Commit, index, DEAL)
}

fn abort(index: u16) -> LogRecord
    requires { index < most_parties }
{
    LogRecord::vote(Outcome::Abort, index, DEAL)
}

/// A call of a log.
#[derive(Clone, Copy)]
enum Call {
    Add(LogRecord),
    Votable(Id),
    Parties(Id),
    Decision(Id),
    TakeBack,
}

/// A line for how many parties there are, if any.
fn parties_told(alloc: Global, parties: Option<u16>) -> Result<String, Fail> {
    match parties {
        Some(parties) => Ok(format!(in alloc; "{parties}\n")?),
        None => Ok(String::from_str(alloc, "none\n")?),
    }
}

/// A line for what is decided and where, if anything is.
fn decision_told(alloc: Global, decision: Option<Decision>) -> Result<String, Fail> {
    match decision {
        Some(Decision { outcome, at }) => Ok(format!(in alloc; "{outcome} {at}\n")?),
        None => Ok(String::from_str(alloc, "none\n")?),
    }
}

/// A line for the record, if there is one.
fn record_told(alloc: Global, rec: &Option<LogRecord>) -> Result<String, Fail> {
    let Some(rec) = rec else {
        return Ok(String::from_str(alloc, "none\n")?);
    };
    let kind = match rec.kind {
        Kind::Start => "start",
        Kind::Commit => "commit",
        Kind::Abort => "abort",
    };
    let (num, deal) = (rec.num, rec.deal);
    Ok(format!(in alloc; "{kind} {num} {deal}\n")?)
}

/// A line for the place of the record that is added.
fn added(alloc: Global, log: &mut Records, rec: &LogRecord) -> Result<String, Fail> {
    match log.add(rec) {
        Ok(place) => Ok(format!(in alloc; "{place}\n")?),
        Err(fault) => Ok(format!(in alloc; "{fault}\n")?),
    }
}

fn answer(alloc: Global, log: &mut Records, call: &Call) -> Result<String, Fail> {
    match call {
        Call::Add(rec) => added(alloc, log, rec),
        Call::Votable(deal) => match log.votable(deal) {
            Ok(parties) => Ok(format!(in alloc; "{parties}\n")?),
            Err(fault) => Ok(format!(in alloc; "{fault}\n")?),
        },
        Call::Parties(deal) => parties_told(alloc, log.parties(deal)),
        Call::Decision(deal) => decision_told(alloc, log.decision(deal)),
        Call::TakeBack => record_told(alloc, &log.take_back()),
    }
}

/// What the log answers to each call, a line each.
fn answers(alloc: Global, log: &mut Records, calls: &[Call]) -> Result<String, Fail> {
    let mut told = String::new(alloc);
    for call in calls {
        told.push_str(&answer(alloc, log, call)?)?;
    }
    Ok(told)
}

fn decided(outcome: Outcome, at: u32) -> Option<Decision> {
    Some(Decision { outcome, at })
}

#[test]
fn first_decisive_place(rt: HostRuntime) {
    let committed = [start(2), commit(0), commit(1), abort(1)];
    assert!(rt; outcome(&committed, &DEAL) == decided(Outcome::Commit, 2));
    assert!(rt; outcome(&committed, &OTHER).is_none());
}

#[test]
fn first_abort_decides(rt: HostRuntime) {
    let aborted = [start(2), abort(0), commit(0), commit(1)];
    assert!(rt; outcome(&aborted, &DEAL) == decided(Outcome::Abort, 1));
}

#[test]
fn votes_by_no_party_or_before_the_start_decide_nothing(rt: HostRuntime) {
    let twice_by_one = [commit(1), start(2), commit(0), commit(0), abort(2)];
    assert!(rt; outcome(&twice_by_one, &DEAL).is_none());
}

/// A log that started a deal of two parties, and what it answered then and before.
fn begun(alloc: Global) -> Result<(Records, String), Fail> {
    let mut log = Records::new(alloc, 64);
    let calls = [
        Call::Add(commit(9)),
        Call::Votable(DEAL),
        Call::Add(start(2)),
        Call::Add(start(3)),
        Call::Votable(DEAL),
    ];
    let told = answers(alloc, &mut log, &calls)?;
    Ok((log, told))
}

#[test]
fn refusals_in_order(rt: HostRuntime) -> Result<(), Fail> {
    let (mut log, told) = begun(rt.alloc())?;
    assert!(rt; told.as_str() == "8 NotStarted\n8 NotStarted\n0\n6 StartedAlready 0\n2\n");
    let calls = [
        Call::Add(commit(2)),
        Call::Add(commit(1)),
        Call::Add(commit(1)),
        Call::Add(abort(1)),
        Call::Add(commit(9)),
        Call::Votable(DEAL),
    ];
    let told = answers(rt.alloc(), &mut log, &calls)?;
    let wanted =
        "5 NotAParty 0000000000000000000000000000000000000000000000000000000000000000\n1\n10 VotedAlready 1\n2\n9 Decided 2 abort\n9 Decided 2 abort\n";
    assert!(rt; told.as_str() == wanted);
    assert!(rt; log.len() == 3 && log.recs() == [start(2), commit(1), abort(1)].as_slice());
    Ok(())
}

/// Whether the log puts a deal of 16 parties at each of the first 240 places.
fn takes_240(log: &mut Records) -> bool {
    for number in 0..240 {
        let added = log.add(&LogRecord::start(16, Id([number; 32])));
        if !matches!(added, Ok(place) if place == u32::from(number)) {
            return false;
        }
    }
    true
}

#[test]
fn log_room(rt: HostRuntime) -> Result<(), Fail> {
    let mut log = Records::new(rt.alloc(), 4096);
    assert!(rt; takes_240(&mut log));
    let last = Id([240; 32]);
    let calls = [
        Call::Add(LogRecord::start(16, last)),
        Call::Add(LogRecord::start(15, last)),
        Call::Add(LogRecord::vote(Outcome::Commit, 14, last)),
    ];
    let told = answers(rt.alloc(), &mut log, &calls)?;
    assert!(rt; told.as_str() == "7 LogFull 240 3840\n240\n241\n");
    Ok(())
}

/// A log of two deals of which one is committed, and what it answered until then.
fn one_committed(alloc: Global) -> Result<(Records, String), Fail> {
    let mut log = Records::new(alloc, 64);
    let calls = [
        Call::Add(start(2)),
        Call::Add(LogRecord::start(3, OTHER)),
        Call::Add(commit(1)),
        Call::Decision(DEAL),
        Call::Add(commit(0)),
    ];
    let told = answers(alloc, &mut log, &calls)?;
    Ok((log, told))
}

#[test]
fn decided_by_tallies(rt: HostRuntime) -> Result<(), Fail> {
    let (mut log, told) = one_committed(rt.alloc())?;
    assert!(rt; told.as_str() == "0\n1\n2\nnone\n3\n");
    let calls = [
        Call::Decision(DEAL),
        Call::Decision(OTHER),
        Call::Decision(UNKNOWN),
        Call::Votable(OTHER),
        Call::Parties(DEAL),
        Call::Parties(UNKNOWN),
    ];
    let told = answers(rt.alloc(), &mut log, &calls)?;
    assert!(rt; told.as_str() == "commit 3\nnone\nnone\n3\n2\nnone\n");
    Ok(())
}

#[test]
fn a_start_is_taken_back(rt: HostRuntime) -> Result<(), Fail> {
    let calls = [
        Call::TakeBack,
        Call::Add(start(2)),
        Call::TakeBack,
        Call::Votable(DEAL),
        Call::Add(start(2)),
    ];
    let told = answers(rt.alloc(), &mut Records::new(rt.alloc(), 3), &calls)?;
    let deal = DEAL;
    let wanted = format!(in rt.alloc(); "none\n0\nstart 2 {deal}\n8 NotStarted\n0\n")?;
    assert!(rt; told == wanted);
    Ok(())
}

/// A log that took back the abort that decided its deal, and what it answered until then.
fn abort_taken_back(alloc: Global) -> Result<(Records, String), Fail> {
    let mut log = Records::new(alloc, 3);
    let calls = [
        Call::Add(start(2)),
        Call::Add(commit(0)),
        Call::Add(abort(1)),
        Call::Decision(DEAL),
        Call::TakeBack,
    ];
    let told = answers(alloc, &mut log, &calls)?;
    Ok((log, told))
}

#[test]
fn a_decisive_vote_is_taken_back(rt: HostRuntime) -> Result<(), Fail> {
    let (mut log, told) = abort_taken_back(rt.alloc())?;
    let deal = DEAL;
    assert!(rt; told == format!(in rt.alloc(); "0\n1\n2\nabort 2\nabort 1 {deal}\n")?);
    let calls = [
        Call::Decision(DEAL),
        Call::Add(commit(0)),
        Call::Add(commit(1)),
        Call::Decision(DEAL),
    ];
    let told = answers(rt.alloc(), &mut log, &calls)?;
    assert!(rt; told.as_str() == "none\n10 VotedAlready 1\n2\ncommit 2\n" && log.len() == 3);
    Ok(())
}
