//! Ledgers over a database in memory.

ghost use Rattle.std.specs.Prelude.{◌≡◌, ◌<◌, IfOk};
ghost use Rattle.act_text.specs.ActTexts.{TextFits};

use crate::{open, submit};
use act_text::{Act, write_act};
use cert_core::{read_set, set_id};
use dh_base::{Id, List, Name, digest};
use keeper_sql::SqlKeeper;
use key_ring::{KeySpec, account_of, make_envelope, make_ring};
use ledger_core::{ActReply, Ledger, LedgerFault, OpenRow, Opening};
use sqlite::MemStore;
use std::alloc::Global;
use std::process::Abort;
use std::test::Fail;

const BEN: Id = Id([0x44; 32]);

/// The greatest amount.
const MOST: u64 = 9_223_372_036_854_775_807;

fn keys() -> KeySpec
    ensures { result.size ≡ 2 }
{
    KeySpec {
        seed: [0x77; 32],
        ident: [0x88; 16],
        size: 2,
    }
}

/// Ann begins with so many coins.
fn opening(alloc: Global, amount: u64) -> Result<Opening, Fail> {
    let mut set = Vec::from_slice(alloc, b"CCDSET01")?;
    set.extend_from_slice(&[0; 6])?;
    set.extend_from_slice(&[7; 32])?;
    let mut rows = Vec::new(alloc);
    rows.push(OpenRow {
        asset: Name::from_bytes(b"coin")?,
        account: account_of(make_ring(alloc, &keys())?.as_slice()),
        amount,
    })?;
    Ok(Opening {
        name: Name::from_bytes(b"coins")?,
        genesis: read_set(&set)?,
        rows: List::from_vec(rows),
    })
}

fn opened(alloc: Global, amount: u64) -> Result<Ledger<SqlKeeper<MemStore>>, Fail> {
    let mut faults = 0;
    let keeper = SqlKeeper::in_memory(alloc, &mut faults)?;
    match open(alloc, keeper, &opening(alloc, amount)?) {
        Ok(ledger) => Ok(ledger),
        Err(refused) => Err(Fail::from(refused.fault)),
    }
}

fn payment(house: Id, amount: u64) -> Result<Act, Fail>
    ensures { IfOk result TextFits }
{
    Ok(Act::Pay {
        house,
        ledger: Name::from_bytes(b"coins")?,
        to: BEN,
        asset: Name::from_bytes(b"coin")?,
        amount,
    })
}

/// The text by which Ann pays Ben so many coins.
fn text_of(alloc: Global, amount: u64) -> Result<Vec<u8>, Fail> {
    let house = set_id(&opening(alloc, amount)?.genesis);
    let act = payment(house, amount)?;
    Ok(write_act(alloc, &act)?.into_vec())
}

/// What the ledger replies to that message under Ann's key.
fn ask(
    alloc: Global,
    ledger: &mut Ledger<SqlKeeper<MemStore>>,
    q: u32,
    message: &[u8],
) -> Result<Result<ActReply, LedgerFault>, Fail>
    requires { q < 2 }
{
    if message.len() > 16_384 {
        return Err(Fail::from("long"));
    }
    let env = make_envelope(alloc, &keys(), q, message)?;
    if env.message.as_slice().len() > 16_384 {
        return Err(Fail::from("long"));
    }
    Ok(submit(ledger, &env))
}

fn ben_has(
    rt: &impl Abort,
    ledger: &mut Ledger<SqlKeeper<MemStore>>,
    amount: u64,
) -> Result<(), Fail> {
    let rows = ledger.account(&BEN)?;
    assert_eq!(rt; rows.as_slice().len(), 1);
    assert!(rt; matches!(rows.as_slice().first(), Some(row) if row.amount == amount));
    Ok(())
}

#[test]
fn repeated_pay(rt: HostRuntime) -> Result<(), Fail> {
    let alloc = rt.alloc();
    let mut ledger = opened(alloc, 10)?;
    let three = text_of(alloc, 3)?;
    let reply = ask(alloc, &mut ledger, 0, three.as_slice())?;
    assert!(rt; matches!(&reply, Ok(ActReply::Done { at: 1 })));
    let reply = ask(alloc, &mut ledger, 0, three.as_slice())?;
    assert!(rt; matches!(&reply, Ok(ActReply::Done { at: 1 })));
    let four = text_of(alloc, 4)?;
    let reply = ask(alloc, &mut ledger, 0, four.as_slice())?;
    let kept = digest(three.as_slice());
    assert!(rt; matches!(&reply, Err(LedgerFault::KeyReused { kept: named }) if *named == kept));
    ben_has(&rt, &mut ledger, 3)
}

#[test]
fn amounts_at_the_limit(rt: HostRuntime) -> Result<(), Fail> {
    let alloc = rt.alloc();
    let mut ledger = opened(alloc, MOST)?;
    let all = text_of(alloc, MOST)?;
    let reply = ask(alloc, &mut ledger, 0, all.as_slice())?;
    assert!(rt; matches!(&reply, Ok(ActReply::Done { at: 1 })));
    let one = text_of(alloc, 1)?;
    let reply = ask(alloc, &mut ledger, 1, one.as_slice())?;
    assert!(rt; matches!(&reply, Err(LedgerFault::Short { held: 0 })));
    ben_has(&rt, &mut ledger, MOST)
}
