//! Each keeper call of an opening and of the acts fails in turn.

ghost use Rattle.std.specs.Prelude.{◌≡◌, ◌<◌, IfOk};
ghost use Rattle.act_text.specs.ActTexts.{TextFits};

use act_text::{Act, write_act};
use cert_core::{Set, read_set, set_id};
use dh_base::{Id, List, Name, digest};
use failing_keeper::FailingKeeper;
use keeper_core::{Keeper, StoreFault};
use key_ring::{Envelope, KeySpec, account_of, make_envelope, make_ring};
use ledger_acts::LedgerFault;
use ledger_core::act_reply::ActReply;
use ledger_core::ledger::Ledger;
use ledger_core::open_fault::OpenFault;
use ledger_core::opening::{OpenRow, Opening};
use std::alloc::Global;
use std::process::Abort;
use std::test::Fail;

const BEN: Id = Id([0x44; 32]);

const CAY: Id = Id([0x55; 32]);

/// The calls of an opening over kept tables: one for the row that names it, 21 to count the
/// entries, and one for the table of deals.
const OPENING: u32 = 23;

fn keys() -> KeySpec
    ensures { result.size ≡ 4 }
{
    KeySpec {
        seed: [0x77; 32],
        ident: [0x88; 16],
        size: 4,
    }
}

/// Ann's account.
fn ann_of(alloc: Global) -> Result<Id, Fail> {
    Ok(account_of(make_ring(alloc, &keys())?.as_slice()))
}

/// Ann is the house's only validator.
fn genesis(alloc: Global, ann: &Id) -> Result<Set, Fail> {
    let mut text = Vec::from_slice(alloc, b"CCDSET01")?;
    text.extend_from_slice(&[0; 6])?;
    text.extend_from_slice(&ann.0)?;
    Ok(read_set(&text)?)
}

/// Ann begins with 10 coins.
fn opening(alloc: Global, ann: &Id) -> Result<Opening, Fail> {
    let mut rows = Vec::new(alloc);
    rows.push(OpenRow {
        asset: Name::from_bytes(b"coin")?,
        account: *ann,
        amount: 10,
    })?;
    Ok(Opening {
        name: Name::from_bytes(b"coins")?,
        genesis: genesis(alloc, ann)?,
        rows: List::from_vec(rows),
    })
}

/// The text of a deal between Ann and Ben.
fn deal_text(alloc: Global, ann: Id) -> Result<String, Fail> {
    let house = set_id(&genesis(alloc, &ann)?);
    let ben = BEN;
    let text = format!(in alloc;
        "deal pair\nhouse {house}\nparty ann {ann}\nparty ben {ben}\nstep ann ben coins coin 3\nstep ben ann coins coin 1\n"
    )?;
    Ok(text)
}

fn registration(alloc: Global, ann: Id) -> Result<Act, Fail>
    ensures { IfOk result TextFits }
{
    let text = deal_text(alloc, ann)?;
    if text.as_bytes().len() > 1000 {
        return Err(Fail::from("long"));
    }
    Ok(Act::Register {
        text: List::from_vec(Vec::from_slice(alloc, text.as_bytes())?),
    })
}

fn escrow(deal: Id) -> Result<Act, Fail>
    ensures { IfOk result TextFits }
{
    Ok(Act::Escrow {
        deal,
        ledger: Name::from_bytes(b"coins")?,
        asset: Name::from_bytes(b"coin")?,
        amount: 4,
    })
}

fn transfer(deal: Id) -> Result<Act, Fail>
    ensures { IfOk result TextFits }
{
    Ok(Act::Transfer {
        deal,
        ledger: Name::from_bytes(b"coins")?,
        turn: 0,
        to: BEN,
        asset: Name::from_bytes(b"coin")?,
        amount: 3,
    })
}

fn payment(house: Id) -> Result<Act, Fail>
    ensures { IfOk result TextFits }
{
    Ok(Act::Pay {
        house,
        ledger: Name::from_bytes(b"coins")?,
        to: BEN,
        asset: Name::from_bytes(b"coin")?,
        amount: 2,
    })
}

/// The act, as Ann says it under that key of hers.
fn said(alloc: Global, q: u32, act: &Act) -> Result<Envelope, Fail>
    requires key { q < 4 }
    requires text { TextFits act.now }
{
    let text = write_act(alloc, act)?.into_vec();
    if text.len() > 16_384 {
        return Err(Fail::from("long"));
    }
    Ok(make_envelope(alloc, &keys(), q, text.as_slice())?)
}

/// Adds the rows of a table to the text.
fn put_rows(text: &mut Vec<u8>, keeper: &mut FailingKeeper, tab: u8) -> Result<(), Fail> {
    for row in keeper.scan(tab)?.as_slice() {
        text.push(tab)?;
        text.extend_from_slice(row.key.as_slice())?;
        text.extend_from_slice(row.val.as_slice())?;
    }
    Ok(())
}

/// The digest of all rows.
fn digest_of_rows(alloc: Global, keeper: &mut FailingKeeper) -> Result<Id, Fail> {
    let mut text = Vec::new(alloc);
    for tab in 1..8u8 {
        put_rows(&mut text, keeper, tab)?;
    }
    Ok(digest(&text))
}

fn opened(alloc: Global, keeper: FailingKeeper, ann: &Id) -> Result<Ledger<FailingKeeper>, Fail> {
    match Ledger::open(alloc, keeper, &opening(alloc, ann)?) {
        Ok(ledger) => Ok(ledger),
        Err(refused) => Err(Fail::from(refused.fault)),
    }
}

/// Opens a ledger, where the call behind so many calls fails. Whether no call failed.
fn open_failing(
    rt: &impl Abort,
    alloc: Global,
    keeper: FailingKeeper,
    ann: &Id,
    calls: u32,
) -> Result<(FailingKeeper, bool), Fail> {
    let mut keeper = keeper;
    let before = digest_of_rows(alloc, &mut keeper)?;
    keeper.fail_behind(calls);
    match Ledger::open(alloc, keeper, &opening(alloc, ann)?) {
        Ok(ledger) => {
            let mut keeper = ledger.close();
            assert!(rt; keeper.is_armed());
            keeper.disarm();
            Ok((keeper, true))
        }
        Err(refused) => {
            let mut keeper = refused.keeper;
            let fault = StoreFault::Keeper;
            assert_eq!(rt; refused.fault, OpenFault::Store { fault });
            assert!(rt; !keeper.is_armed());
            assert_eq!(rt; digest_of_rows(alloc, &mut keeper)?, before);
            Ok((keeper, false))
        }
    }
}

/// Opens a ledger, where each of so many calls fails in turn, and then none.
fn open_at_last(
    rt: &impl Abort,
    alloc: Global,
    keeper: FailingKeeper,
    ann: &Id,
    calls: u32,
) -> Result<FailingKeeper, Fail> {
    let mut keeper = keeper;
    for call in 0..calls {
        let (next, is_open) = open_failing(rt, alloc, keeper, ann, call)?;
        assert!(rt; !is_open);
        keeper = next;
    }
    let (keeper, is_open) = open_failing(rt, alloc, keeper, ann, calls)?;
    assert!(rt; is_open);
    Ok(keeper)
}

#[test]
fn each_call_of_an_opening_fails(rt: HostRuntime) -> Result<(), Fail> {
    let alloc = rt.alloc();
    let keeper = open_at_last(&rt, alloc, FailingKeeper::new(alloc), &CAY, 2)?;
    open_at_last(&rt, alloc, keeper, &CAY, OPENING)?;
    Ok(())
}

/// Submits an act, where the call behind so many calls fails.
fn submit_failing(
    rt: &impl Abort,
    alloc: Global,
    keeper: FailingKeeper,
    ann: &Id,
    env: &Envelope,
    calls: u32,
) -> Result<(FailingKeeper, Option<u64>), Fail> {
    let mut keeper = keeper;
    let before = digest_of_rows(alloc, &mut keeper)?;
    keeper.fail_behind(OPENING.saturating_add(calls));
    let mut ledger = opened(alloc, keeper, ann)?;
    if env.message.as_slice().len() > 16_384 {
        return Err(Fail::from("long"));
    }
    let reply = ledger.submit(env);
    let mut keeper = ledger.close();
    let is_armed = keeper.is_armed();
    keeper.disarm();
    match reply {
        Ok(ActReply::Done { at }) => {
            assert!(rt; is_armed);
            Ok((keeper, Some(at)))
        }
        Err(fault) => {
            assert!(rt;
                matches!(
                    fault,
                    LedgerFault::Store {
                        fault: StoreFault::Keeper
                    }
                )
            );
            assert!(rt; !is_armed);
            assert_eq!(rt; digest_of_rows(alloc, &mut keeper)?, before);
            Ok((keeper, None))
        }
    }
}

/// Submits an act, where each of so many calls fails in turn, and then none.
fn submit_at_last(
    rt: &impl Abort,
    alloc: Global,
    keeper: FailingKeeper,
    ann: &Id,
    env: &Envelope,
    calls: u32,
    at: u64,
) -> Result<FailingKeeper, Fail> {
    let mut keeper = keeper;
    for call in 0..calls {
        let (next, done) = submit_failing(rt, alloc, keeper, ann, env, call)?;
        assert_eq!(rt; done, None);
        keeper = next;
    }
    let (keeper, done) = submit_failing(rt, alloc, keeper, ann, env, calls)?;
    assert_eq!(rt; done, Some(at));
    Ok(keeper)
}

/// A keeper over which Ann has registered the deal.
fn with_deal(rt: &impl Abort, alloc: Global, ann: &Id) -> Result<FailingKeeper, Fail> {
    let keeper = opened(alloc, FailingKeeper::new(alloc), ann)?.close();
    let env = said(alloc, 0, &registration(alloc, *ann)?)?;
    submit_at_last(rt, alloc, keeper, ann, &env, 4, 1)
}

/// Ann puts 4 coins under the deal.
fn with_escrow(
    rt: &impl Abort,
    alloc: Global,
    keeper: FailingKeeper,
    ann: &Id,
    deal: Id,
) -> Result<FailingKeeper, Fail> {
    let env = said(alloc, 1, &escrow(deal)?)?;
    submit_at_last(rt, alloc, keeper, ann, &env, 5, 2)
}

/// Ann hands 3 of them to Ben.
fn with_transfer(
    rt: &impl Abort,
    alloc: Global,
    keeper: FailingKeeper,
    ann: &Id,
    deal: Id,
) -> Result<FailingKeeper, Fail> {
    let env = said(alloc, 2, &transfer(deal)?)?;
    submit_at_last(rt, alloc, keeper, ann, &env, 6, 3)
}

/// Ann pays Ben, and says it once more, which is answered by one row.
fn with_payment(
    rt: &impl Abort,
    alloc: Global,
    keeper: FailingKeeper,
    ann: &Id,
) -> Result<FailingKeeper, Fail> {
    let house = set_id(&genesis(alloc, ann)?);
    let env = said(alloc, 3, &payment(house)?)?;
    let keeper = submit_at_last(rt, alloc, keeper, ann, &env, 4, 4)?;
    submit_at_last(rt, alloc, keeper, ann, &env, 1, 4)
}

#[test]
fn each_call_of_the_acts_fails(rt: HostRuntime) -> Result<(), Fail> {
    let alloc = rt.alloc();
    let ann = ann_of(alloc)?;
    let deal = digest(deal_text(alloc, ann)?.as_bytes());
    let keeper = with_deal(&rt, alloc, &ann)?;
    let keeper = with_escrow(&rt, alloc, keeper, &ann, deal)?;
    let keeper = with_transfer(&rt, alloc, keeper, &ann, deal)?;
    with_payment(&rt, alloc, keeper, &ann)?;
    Ok(())
}
