//! What the one log answers.

ghost use Rattle.std.specs.Prelude.{◌≡◌, ◌≤◌, ◌<◌, length, position, IfSome};
ghost use Rattle.std.specs.Str.{bytes_eq};
ghost use Rattle.dh_base.specs.Limits.{most_parties};
ghost use Rattle.plain_core.specs.Given.{GivesLog};
ghost use Rattle.plain_core.specs.Ledgers.{add_answer, start_answer, vote_answer};

use crate::ledger::is_member;
use crate::log_refusal::LogRefusal;
use crate::reply::Reply;
use dh_base::{Name, NoMemory, Outcome};
use plain_script::plain_id;
use vote_log::{LogFault, LogRecord, Records};

/// Adds the record to the log.
fn add(log: &mut Records, entry: &LogRecord) -> Result<Reply, NoMemory>
    ensures { GivesLog result log.new (add_answer log.old entry.now) }
{
    match log.add(entry) {
        Ok(at) => Ok(Reply::Entered { at }),
        Err(LogFault::NoMemory) => Err(NoMemory),
        Err(fault) => Ok(Reply::RefusedEntry(LogRefusal::Fault(fault))),
    }
}

/// A party of the deal starts it in the log.
pub fn start_deal(
    log: &mut Records,
    members: &[Name],
    deal: &Name,
    party: &Name,
) -> Result<Reply, NoMemory>
    requires several { 0 < length members.now → 2 ≤ length members.now }
    requires few { length members.now ≤ most_parties }
    ensures { GivesLog result log.new (start_answer members.now deal.now party.now log.old) }
{
    if !is_member(members, party) {
        return Ok(Reply::RefusedEntry(LogRefusal::NotAParty { account: *party }));
    }
    add(log, &LogRecord::start(members.len() as u16, plain_id(deal)))
}

/// The index of the party among the members.
fn index_of(members: &[Name], party: &Name) -> Option<usize>
    ensures value { result ≡ position (bytes_eq party.now) members.now }
    ensures bound { IfSome result (λ index. index < length members.now) }
{
    members.iter().position(|member| party == member)
}

/// A party of the deal votes in the log.
pub fn vote(
    log: &mut Records,
    members: &[Name],
    choice: Outcome,
    deal: &Name,
    party: &Name,
) -> Result<Reply, NoMemory>
    requires { length members.now ≤ most_parties }
    ensures { GivesLog result log.new (vote_answer members.now choice deal.now party.now log.old) }
{
    let id = plain_id(deal);
    if let Err(fault) = log.votable(&id) {
        return Ok(Reply::RefusedEntry(LogRefusal::Fault(fault)));
    }
    match index_of(members, party) {
        None => Ok(Reply::RefusedEntry(LogRefusal::NotAParty { account: *party })),
        Some(index) => add(log, &LogRecord::vote(choice, index as u16, id)),
    }
}
