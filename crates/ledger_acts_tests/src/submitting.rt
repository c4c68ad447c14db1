//! Envelopes over a keeper in memory. A test compares the replies, a line each.

ghost use Rattle.std.specs.Prelude.{◌≡◌, ◌<◌, IfOk};
ghost use Rattle.act_text.specs.ActTexts.{TextFits};

use act_text::{Act, write_act};
use dh_base::{Id, List, Name, digest};
use keeper_core::{Arm, Batch, Keeper, MemKeeper};
use key_ring::{Envelope, KeySpec, account_of, make_envelope, make_ring};
use ledger_acts::ledger_id::LedgerId;
use ledger_acts::place::Place;
use ledger_acts::submitting::submit;
use ledger_rows::{put_free, read_free};
use std::alloc::Global;
use std::test::Fail;

const HOUSE: Id = Id([0x11; 32]);

const BEN: Id = Id([0x44; 32]);

/// The greatest amount.
const MOST: u64 = 9_223_372_036_854_775_807;

fn coin() -> Result<Name, Fail> {
    Ok(Name::from_bytes(b"coin")?)
}

fn coins() -> Result<LedgerId, Fail> {
    Ok(LedgerId {
        name: Name::from_bytes(b"coins")?,
        house: HOUSE,
    })
}

fn keys() -> KeySpec
    ensures { result.size ≡ 2 }
{
    KeySpec {
        seed: [0x77; 32],
        ident: [0x88; 16],
        size: 2,
    }
}

fn ann(alloc: Global) -> Result<Id, Fail> {
    Ok(account_of(make_ring(alloc, &keys())?.as_slice()))
}

fn payment(amount: u64) -> Result<Act, Fail>
    ensures { IfOk result TextFits }
{
    Ok(Act::Pay {
        house: HOUSE,
        ledger: Name::from_bytes(b"coins")?,
        to: BEN,
        asset: coin()?,
        amount,
    })
}

fn text_of(alloc: Global, amount: u64) -> Result<Vec<u8>, Fail> {
    let act = payment(amount)?;
    Ok(write_act(alloc, &act)?.into_vec())
}

/// A keeper of which Ann can spend that.
fn with_amount(alloc: Global, amount: u64) -> Result<MemKeeper, Fail> {
    let mut batch = Batch::new(alloc);
    put_free(alloc, &mut batch, &ann(alloc)?, &coin()?, amount)?;
    let mut keeper = MemKeeper::new(alloc);
    keeper.commit(&batch)?;
    Ok(keeper)
}

/// What the ledger of coins, which has no entry, replies to the envelope.
fn reply(alloc: Global, keeper: &mut MemKeeper, env: &Envelope) -> Result<String, Fail> {
    let place = Place { number: 1, acts: 0 };
    if env.message.len() > 16_384 {
        return Err(Fail::from("long"));
    }
    match submit(alloc, keeper, &coins()?, &place, env) {
        Ok(number) => Ok(format!(in alloc; "{number}\n")?),
        Err(fault) => Ok(format!(in alloc; "{fault}\n")?),
    }
}

/// What it replies to that message under Ann's key of that number.
fn ask(alloc: Global, keeper: &mut MemKeeper, q: u32, message: &[u8]) -> Result<String, Fail>
    requires { q < 2 }
{
    if message.len() > 16_384 {
        return Err(Fail::from("long"));
    }
    reply(alloc, keeper, &make_envelope(alloc, &keys(), q, message)?)
}

/// What Ann and Ben can spend.
fn held(alloc: Global, keeper: &mut MemKeeper) -> Result<(u64, u64), Fail> {
    let own = read_free(alloc, keeper, &ann(alloc)?, &coin()?)?;
    Ok((own, read_free(alloc, keeper, &BEN, &coin()?)?))
}

#[test]
fn repeated_pay(rt: HostRuntime) -> Result<(), Fail> {
    let alloc = rt.alloc();
    let mut keeper = with_amount(alloc, 10)?;
    let three = text_of(alloc, 3)?;
    assert!(rt; ask(alloc, &mut keeper, 0, &three)?.as_str() == "1\n");
    assert!(rt; ask(alloc, &mut keeper, 0, &three)?.as_str() == "1\n");
    let kept = digest(&three);
    let reused = format!(in alloc; "3 KeyReused {kept}\n")?;
    assert!(rt; ask(alloc, &mut keeper, 0, &text_of(alloc, 4)?)? == reused);
    assert!(rt; held(alloc, &mut keeper)? == (7, 3));
    Ok(())
}

#[test]
fn amounts_at_the_limit(rt: HostRuntime) -> Result<(), Fail> {
    let alloc = rt.alloc();
    let mut keeper = with_amount(alloc, MOST)?;
    assert!(rt; ask(alloc, &mut keeper, 0, &text_of(alloc, MOST)?)?.as_str() == "1\n");
    assert!(rt; ask(alloc, &mut keeper, 1, &text_of(alloc, 1)?)?.as_str() == "13 Short 0\n");
    assert!(rt; held(alloc, &mut keeper)? == (0, MOST));
    Ok(())
}

#[test]
fn failed_commit(rt: HostRuntime) -> Result<(), Fail> {
    let alloc = rt.alloc();
    let mut keeper = with_amount(alloc, 10)?;
    let three = text_of(alloc, 3)?;
    keeper.arm(Arm::StopBefore);
    assert!(rt; ask(alloc, &mut keeper, 0, &three)?.as_str() == "15 Store 1 Keeper\n");
    keeper.restart();
    assert!(rt; held(alloc, &mut keeper)? == (10, 0));
    assert!(rt; ask(alloc, &mut keeper, 0, &three)?.as_str() == "1\n");
    assert!(rt; held(alloc, &mut keeper)? == (7, 3));
    Ok(())
}

/// An envelope of no message, under a key number that Ann's ring doesn't have.
fn outside(alloc: Global) -> Result<Envelope, Fail> {
    let mut env = make_envelope(alloc, &keys(), 0, b"pay ben")?;
    env.q = 2;
    env.message = List::from_vec(Vec::new(alloc));
    Ok(env)
}

#[test]
fn bad_acts_and_envelopes(rt: HostRuntime) -> Result<(), Fail> {
    let alloc = rt.alloc();
    let mut keeper = with_amount(alloc, 10)?;
    assert!(rt; ask(alloc, &mut keeper, 0, b"pay ben")?.as_str() == "2 BadAct 1 BadTag\n");
    let told = reply(alloc, &mut keeper, &outside(alloc)?)?;
    assert!(rt; told.as_str() == "1 BadEnvelope 3 KeyOutside 2 2\n");
    assert!(rt; held(alloc, &mut keeper)? == (10, 0));
    Ok(())
}
