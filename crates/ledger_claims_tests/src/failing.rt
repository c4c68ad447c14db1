//! Each keeper call of a claim fails in turn.

ghost use Rattle.std.specs.Prelude.{◌≡◌, IfOk};
ghost use Rattle.claim_core.specs.Limits.{IsSmall};

use crate::house::{claim_of, deal_of, opened_by, opening, with_deal};
use claim_core::Claim;
use dh_base::{Id, Outcome, digest};
use failing_keeper::FailingKeeper;
use keeper_core::{Keeper, StoreFault};
use ledger_core::{ClaimReply, Opening, ShowFault};
use std::alloc::Global;
use std::process::Abort;
use std::test::Fail;
use vote_log::LogRecord;

/// The calls of an opening over kept tables.
const OPENING: u32 = 23;

/// Adds the rows of a table to the text.
fn put_rows(text: &mut Vec<u8>, keeper: &mut FailingKeeper, tab: u8) -> Result<(), Fail> {
    for row in keeper.scan(tab)?.as_slice() {
        text.push(tab)?;
        text.extend_from_slice(row.key.as_slice())?;
        text.extend_from_slice(row.val.as_slice())?;
    }
    Ok(())
}

/// The digest of all rows.
fn digest_of_rows(alloc: Global, keeper: &mut FailingKeeper) -> Result<Id, Fail> {
    let mut text = Vec::new(alloc);
    for tab in 1..8u8 {
        put_rows(&mut text, keeper, tab)?;
    }
    Ok(digest(&text))
}

/// What the claim on the deal is answered, where the call behind so many calls fails.
fn claim_failing(
    alloc: Global,
    keeper: FailingKeeper,
    opening: &Opening,
    deal: &Id,
    claim: &Claim,
    calls: u32,
) -> Result<(FailingKeeper, Result<ClaimReply, ShowFault>), Fail>
    requires first { opening.now.genesis.epoch ≡ 0 }
    requires small { IsSmall claim.now }
{
    let mut keeper = keeper;
    keeper.fail_behind(OPENING.saturating_add(calls));
    let mut ledger = opened_by(alloc, keeper, opening)?;
    let reply = ledger.claim(deal, claim);
    let mut keeper = ledger.close();
    keeper.disarm();
    Ok((keeper, reply))
}

/// Each of so many calls fails in turn, and nothing is changed.
fn each_fails(
    rt: &impl Abort,
    alloc: Global,
    keeper: FailingKeeper,
    opening: &Opening,
    deal: &Id,
    claim: &Claim,
    calls: u32,
) -> Result<FailingKeeper, Fail>
    requires first { opening.now.genesis.epoch ≡ 0 }
    requires small { IsSmall claim.now }
{
    let mut keeper = keeper;
    let before = digest_of_rows(alloc, &mut keeper)?;
    for call in 0..calls {
        let (mut left, reply) = claim_failing(alloc, keeper, opening, deal, claim, call)?;
        let fault = StoreFault::Keeper;
        assert!(rt; reply == Err(ShowFault::Store { fault }));
        assert!(rt; digest_of_rows(alloc, &mut left)? == before);
        keeper = left;
    }
    Ok(keeper)
}

/// The claim of records by which the deal is aborted.
fn abort_of(alloc: Global, deal: Id) -> Result<Claim, Fail>
    ensures { IfOk result IsSmall }
{
    let recs = [
        LogRecord::start(2, deal),
        LogRecord::vote(Outcome::Abort, 1, deal),
    ];
    claim_of(alloc, &recs)
}

/// The rows of the deal, of the holds, of what Ann and Ben can spend, and the commit.
#[test]
fn each_call_of_a_claim_fails(rt: HostRuntime) -> Result<(), Fail> {
    let alloc = rt.alloc();
    let deal = deal_of(alloc)?;
    let opening = opening(alloc)?;
    let claim = abort_of(alloc, deal)?;
    let keeper = with_deal(alloc)?;
    let keeper = each_fails(&rt, alloc, keeper, &opening, &deal, &claim, 5)?;
    let outcome = Outcome::Abort;
    let (keeper, reply) = claim_failing(alloc, keeper, &opening, &deal, &claim, 5)?;
    assert!(rt; reply == Ok(ClaimReply::Settled { outcome }));
    let (_, reply) = claim_failing(alloc, keeper, &opening, &deal, &claim, 1)?;
    assert!(rt; reply == Ok(ClaimReply::Already { outcome }));
    Ok(())
}
