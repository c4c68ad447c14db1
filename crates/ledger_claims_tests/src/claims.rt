//! What claims are replied, and what they pay. A test compares the replies of ledgers over one
//! keeper, as text.

ghost use Rattle.std.specs.Prelude.{◌≡◌, ◌≤◌, IfOk};
ghost use Rattle.claim_core.specs.Limits.{IsSmall};

use crate::house::{BEN, ann_of, claim_of, deal_of, escrow, opened, said, with_deal};
use claim_core::Claim;
use dh_base::{Id, List, Outcome};
use failing_keeper::FailingKeeper;
use ledger_core::{ClaimReply, Ledger};
use std::alloc::Global;
use std::test::Fail;
use vote_log::LogRecord;

/// What the account can spend.
fn coins(ledger: &mut Ledger<FailingKeeper>, account: &Id) -> Result<u64, Fail> {
    let rows = ledger.account(account)?;
    Ok(match rows.as_slice().first() {
        Some(row) => row.amount,
        None => 0,
    })
}

/// What Ann and Ben can spend, and how many entries there are.
fn standing(alloc: Global, ledger: &mut Ledger<FailingKeeper>) -> Result<String, Fail> {
    let ann = coins(ledger, &ann_of(alloc)?)?;
    let ben = coins(ledger, &BEN)?;
    let at = ledger.statement(&deal_of(alloc)?, &BEN)?.at;
    Ok(format!(in alloc; "ann {ann} ben {ben} at {at}")?)
}

/// What the ledger replies to the claim.
fn reply(
    alloc: Global,
    ledger: &mut Ledger<FailingKeeper>,
    deal: &Id,
    claim: &Claim,
) -> Result<String, Fail>
    requires first { ledger.old.genesis.epoch ≡ 0 }
    requires small { IsSmall claim.now }
{
    match ledger.claim(deal, claim) {
        Ok(ClaimReply::Settled { outcome }) => Ok(format!(in alloc; "settled {outcome}")?),
        Ok(ClaimReply::Already { outcome }) => Ok(format!(in alloc; "already {outcome}")?),
        Err(fault) => Ok(format!(in alloc; "{fault}")?),
    }
}

/// A keeper, and what ledgers over it have replied.
#[derive(Drop)]
struct Course {
    keeper: FailingKeeper,
    told: String,
}

/// The deal is registered, and nothing is claimed.
fn begun(alloc: Global) -> Result<Course, Fail> {
    Ok(Course {
        keeper: with_deal(alloc)?,
        told: String::new(alloc),
    })
}

/// A claim on the deal, and what then stands.
fn show(alloc: Global, course: Course, deal: &Id, claim: &Claim) -> Result<Course, Fail>
    requires { IsSmall claim.now }
{
    let mut told = course.told;
    let mut ledger = opened(alloc, course.keeper)?;
    let reply = reply(alloc, &mut ledger, deal, claim)?;
    let standing = standing(alloc, &mut ledger)?;
    told.push_str(&format!(in alloc; "{reply}: {standing}\n")?)?;
    let keeper = ledger.close();
    Ok(Course { keeper, told })
}

/// The deal's start and the commits of both parties, or the first records of them.
fn commits(alloc: Global, deal: Id, len: usize) -> Result<Claim, Fail>
    requires { len ≤ 3 }
    ensures { IfOk result IsSmall }
{
    let recs = [
        LogRecord::start(2, deal),
        LogRecord::vote(Outcome::Commit, 0, deal),
        LogRecord::vote(Outcome::Commit, 1, deal),
    ];
    claim_of(alloc, &recs[..len])
}

/// The same without a signature.
fn unsigned(alloc: Global, deal: Id) -> Result<Claim, Fail>
    ensures { IfOk result IsSmall }
{
    let mut claim = commits(alloc, deal, 3)?;
    claim.sigs = List::from_vec(Vec::new(alloc));
    Ok(claim)
}

#[test]
fn undecided_then_settled(rt: HostRuntime) -> Result<(), Fail> {
    let alloc = rt.alloc();
    let deal = deal_of(alloc)?;
    let course = show(alloc, begun(alloc)?, &deal, &commits(alloc, deal, 2)?)?;
    let course = show(alloc, course, &deal, &commits(alloc, deal, 3)?)?;
    assert!(rt;
        course.told.as_str()
            == "3 Undecided 2: ann 6 ben 0 at 3\nsettled commit: ann 7 ben 3 at 4\n"
    );
    Ok(())
}

#[test]
fn an_unknown_deal_is_not_settled(rt: HostRuntime) -> Result<(), Fail> {
    let alloc = rt.alloc();
    let claim = commits(alloc, BEN, 3)?;
    let course = show(alloc, begun(alloc)?, &BEN, &claim)?;
    assert!(rt; course.told.as_str() == "1 UnknownDeal: ann 6 ben 0 at 3\n");
    Ok(())
}

#[test]
fn an_unsigned_claim_settles_nothing(rt: HostRuntime) -> Result<(), Fail> {
    let alloc = rt.alloc();
    let deal = deal_of(alloc)?;
    let course = show(alloc, begun(alloc)?, &deal, &unsigned(alloc, deal)?)?;
    assert!(rt; course.told.as_str() == "2 BadClaim 3 BadQuorum 6 TooFew 0 1: ann 6 ben 0 at 3\n");
    Ok(())
}

#[test]
fn a_deal_that_has_ended_is_answered_so_whatever_the_claim_is(rt: HostRuntime) -> Result<(), Fail> {
    let alloc = rt.alloc();
    let deal = deal_of(alloc)?;
    let course = show(alloc, begun(alloc)?, &deal, &commits(alloc, deal, 3)?)?;
    let course = show(alloc, course, &deal, &unsigned(alloc, deal)?)?;
    assert!(rt;
        course.told.as_str()
            == "settled commit: ann 7 ben 3 at 4\nalready commit: ann 7 ben 3 at 4\n"
    );
    Ok(())
}

#[test]
fn an_abort_pays_the_escrow_back(rt: HostRuntime) -> Result<(), Fail> {
    let alloc = rt.alloc();
    let deal = deal_of(alloc)?;
    let outcome = Outcome::Abort;
    let recs = [LogRecord::start(2, deal), LogRecord::vote(outcome, 1, deal)];
    let course = show(alloc, begun(alloc)?, &deal, &claim_of(alloc, &recs)?)?;
    assert!(rt; course.told.as_str() == "settled abort: ann 10 ben 0 at 4\n");
    Ok(())
}

/// A ledger over the keeper of a deal that has ended.
fn ended(alloc: Global) -> Result<Ledger<FailingKeeper>, Fail> {
    let deal = deal_of(alloc)?;
    let course = show(alloc, begun(alloc)?, &deal, &commits(alloc, deal, 3)?)?;
    opened(alloc, course.keeper)
}

#[test]
fn an_ended_deal_takes_no_escrow(rt: HostRuntime) -> Result<(), Fail> {
    let alloc = rt.alloc();
    let env = said(alloc, 3, &escrow(deal_of(alloc)?)?)?;
    let mut ledger = ended(alloc)?;
    let told = match ledger.submit(&env) {
        Ok(_) => String::from_str(alloc, "done")?,
        Err(fault) => format!(in alloc; "{fault}")?,
    };
    assert!(rt; told.as_str() == "10 DealSettled commit");
    Ok(())
}

#[test]
fn an_ended_deal_is_told_so(rt: HostRuntime) -> Result<(), Fail> {
    let alloc = rt.alloc();
    let deal = deal_of(alloc)?;
    let mut ledger = ended(alloc)?;
    let told = ledger.settlement(&deal)?;
    let statement = ledger.statement(&deal, &BEN)?;
    assert!(rt; told == Some(Outcome::Commit) && statement.settled == told);
    Ok(())
}
