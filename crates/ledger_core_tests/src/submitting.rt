//! Envelopes to a ledger over a keeper in memory. A test compares the replies, as text.

ghost use Rattle.std.specs.Prelude.{◌≡◌, ◌<◌, IfOk};
ghost use Rattle.act_text.specs.ActTexts.{TextFits};

use act_text::{Act, write_act};
use cert_core::{read_set, set_id};
use dh_base::{Id, List, Name, digest};
use keeper_core::MemKeeper;
use key_ring::{Envelope, KeySpec, account_of, make_envelope, make_ring};
use ledger_core::act_reply::ActReply;
use ledger_core::ledger::Ledger;
use ledger_core::opening::{OpenRow, Opening};
use std::alloc::Global;
use std::test::Fail;

const BEN: Id = Id([0x44; 32]);

fn keys() -> KeySpec
    ensures { result.size ≡ 2 }
{
    KeySpec {
        seed: [0x77; 32],
        ident: [0x88; 16],
        size: 2,
    }
}

/// Ann begins with 10 coins.
fn opening(alloc: Global) -> Result<Opening, Fail> {
    let mut set = Vec::from_slice(alloc, b"CCDSET01")?;
    set.extend_from_slice(&[0; 6])?;
    set.extend_from_slice(&[7; 32])?;
    let mut rows = Vec::new(alloc);
    rows.push(OpenRow {
        asset: Name::from_bytes(b"coin")?,
        account: account_of(make_ring(alloc, &keys())?.as_slice()),
        amount: 10,
    })?;
    Ok(Opening {
        name: Name::from_bytes(b"coins")?,
        genesis: read_set(&set)?,
        rows: List::from_vec(rows),
    })
}

fn payment(house: Id, amount: u64) -> Result<Act, Fail>
    ensures { IfOk result TextFits }
{
    Ok(Act::Pay {
        house,
        ledger: Name::from_bytes(b"coins")?,
        to: BEN,
        asset: Name::from_bytes(b"coin")?,
        amount,
    })
}

/// Ann pays Ben so many coins, under that key of hers.
fn paying(alloc: Global, house: Id, q: u32, amount: u64) -> Result<Envelope, Fail>
    requires { q < 2 }
{
    let act = payment(house, amount)?;
    let text = write_act(alloc, &act)?.into_vec();
    if text.len() > 16_384 {
        return Err(Fail::from("long"));
    }
    Ok(make_envelope(alloc, &keys(), q, text.as_slice())?)
}

fn opened(alloc: Global, keeper: MemKeeper) -> Result<Ledger<MemKeeper>, Fail> {
    match Ledger::open(alloc, keeper, &opening(alloc)?) {
        Ok(ledger) => Ok(ledger),
        Err(refused) => Err(Fail::from(refused.fault)),
    }
}

/// What the ledger replies.
fn reply(alloc: Global, ledger: &mut Ledger<MemKeeper>, env: &Envelope) -> Result<String, Fail> {
    if env.message.as_slice().len() > 16_384 {
        return Err(Fail::from("long"));
    }
    match ledger.submit(env) {
        Ok(ActReply::Done { at }) => Ok(format!(in alloc; "done {at}")?),
        Err(fault) => Ok(format!(in alloc; "{fault}")?),
    }
}

/// What Ben can spend, of each asset.
fn ben_has(ledger: &mut Ledger<MemKeeper>, amount: u64) -> Result<bool, Fail> {
    let rows = ledger.account(&BEN)?;
    Ok(matches!(rows.as_slice(), [row] if row.amount == amount))
}

#[test]
fn an_act_is_taken_once(rt: HostRuntime) -> Result<(), Fail> {
    let alloc = rt.alloc();
    let house = set_id(&opening(alloc)?.genesis);
    let three = paying(alloc, house, 0, 3)?;
    let mut ledger = opened(alloc, MemKeeper::new(alloc))?;
    assert!(rt; reply(alloc, &mut ledger, &three)?.as_str() == "done 1");
    assert!(rt; reply(alloc, &mut ledger, &three)?.as_str() == "done 1");
    let kept = digest(three.message.as_slice());
    let reused = format!(in alloc; "3 KeyReused {kept}")?;
    assert!(rt; reply(alloc, &mut ledger, &paying(alloc, house, 0, 5)?)? == reused);
    assert!(rt; ben_has(&mut ledger, 3)?);
    Ok(())
}

/// The keeper of a ledger to which Ann paid 3 and then 4.
fn with_seven(alloc: Global, house: Id) -> Result<MemKeeper, Fail> {
    let mut ledger = opened(alloc, MemKeeper::new(alloc))?;
    let _first = reply(alloc, &mut ledger, &paying(alloc, house, 0, 3)?)?;
    let _second = reply(alloc, &mut ledger, &paying(alloc, house, 1, 4)?)?;
    Ok(ledger.close())
}

#[test]
fn acts_are_kept(rt: HostRuntime) -> Result<(), Fail> {
    let alloc = rt.alloc();
    let house = set_id(&opening(alloc)?.genesis);
    let mut ledger = opened(alloc, with_seven(alloc, house)?)?;
    let three = paying(alloc, house, 0, 3)?;
    assert!(rt; reply(alloc, &mut ledger, &three)?.as_str() == "done 1");
    let four = paying(alloc, house, 1, 4)?;
    assert!(rt; reply(alloc, &mut ledger, &four)?.as_str() == "done 2");
    assert!(rt; ben_has(&mut ledger, 7)?);
    Ok(())
}
