ghost use Rattle.std.specs.Prelude.{◌≤◌, ◌<◌, length, IfOk};

use act_text::{HeldRow, Statement};
use deal_core::{Deal, read_deal};
use dh_base::{BaseFault, Id, List, Name, Outcome};
use joined_deals::JoinedDeal;
use joined_deals::heard::{is_settled_in, keep, kept_of};
use keeper_core::MemKeeper;
use key_ring::{KeySpec, Signer};
use std::alloc::{AllocError, Global};
use std::test::Fail;

/// Nothing is due to alice but one coin.
const BROKER: &str = "deal d
house 0000000000000000000000000000000000000000000000000000000000000000
party alice 1111111111111111111111111111111111111111111111111111111111111111
party bob 2222222222222222222222222222222222222222222222222222222222222222
party carol 3333333333333333333333333333333333333333333333333333333333333333
step bob alice tickets ticket 1
step alice carol tickets ticket 1
step carol alice coins coin 101
step alice bob coins coin 100
";

/// The broker's deal as the party of that index has joined it.
fn broker(alloc: Global, index: u16) -> Result<JoinedDeal, Fail> {
    let Ok(deal) = read_deal(alloc, BROKER.as_bytes()) else {
        return Err(Fail::from("not read"));
    };
    if deal.parties().len() <= usize::from(index) {
        return Err(Fail::from("too few parties"));
    }
    Ok(JoinedDeal::new(alloc, deal, index, 50)?)
}

fn name(text: &str) -> Result<Name, BaseFault> {
    Name::from_bytes(text.as_bytes())
}

/// What coins tells of alice: at how many entries, her moves, her coins, and whether it is settled.
#[derive(Clone, Copy)]
struct Told {
    at: u64,
    moves: u32,
    coins: u64,
    settled: Option<Outcome>,
}

fn on_coins(alloc: Global, deal: Id, told: &Told) -> Result<Statement, Fail> {
    let mut rows = Vec::new(alloc);
    rows.push(HeldRow {
        asset: name("coin")?,
        amount: told.coins,
    })?;
    Ok(Statement {
        house: Id([0; 32]),
        ledger: name("coins")?,
        deal,
        party: Id([0x11; 32]),
        at: told.at,
        moves: told.moves,
        rows: List::from_vec(rows),
        settled: told.settled,
    })
}

/// The text of alice's second transfer.
fn second_transfer(alloc: Global, deal: &Id) -> Result<Vec<u8>, AllocError> {
    let mut text = Vec::new(alloc);
    text.extend_from_slice(b"CCDACT01\x04")?;
    text.extend_from_slice(&deal.0)?;
    text.extend_from_slice(b"\x05coins\x00\x00\x00\x00")?;
    text.extend_from_slice(&[0x22; 32])?;
    text.extend_from_slice(b"\x04coin\x00\x00\x00\x00\x00\x00\x00\x64")?;
    Ok(text)
}

/// The text of alice's abort.
fn abort_of_alice(alloc: Global, deal: &Id) -> Result<Vec<u8>, AllocError> {
    let mut text = Vec::new(alloc);
    text.extend_from_slice(b"CCDACT01\x06")?;
    text.extend_from_slice(&deal.0)?;
    text.extend_from_slice(b"\x00\x00\x03")?;
    Ok(text)
}

fn is_second_transfer(alloc: Global, joined: &JoinedDeal) -> Result<bool, Fail> {
    let text = second_transfer(alloc, &joined.id())?;
    Ok(joined.act_text(2) == Some(text.as_slice()) && joined.act_text(3).is_none())
}

fn is_abort_of_alice(alloc: Global, joined: &JoinedDeal) -> Result<bool, Fail> {
    let text = abort_of_alice(alloc, &joined.id())?;
    Ok(joined.vote_text(Outcome::Abort) == text.as_slice())
}

#[test]
fn a_broker_signs_two_transfers(rt: HostRuntime) -> Result<(), Fail> {
    let joined = broker(rt.alloc(), 0)?;
    assert!(rt; joined.keys_needed() == 6 && joined.deadline() == 50);
    assert!(rt; is_second_transfer(rt.alloc(), &joined)?);
    assert!(rt; is_abort_of_alice(rt.alloc(), &joined)?);
    Ok(())
}

/// Bob's signer of three keys, which has signed the start if that is wanted.
fn signer_of_bob(alloc: Global, joined: &JoinedDeal, starts: bool) -> Result<Signer, Fail> {
    let spec = KeySpec {
        seed: [7; 32],
        ident: [8; 16],
        size: 3,
    };
    let mut keeper = MemKeeper::new(alloc);
    let Ok(mut signer) = Signer::load(alloc, &spec, &mut keeper) else {
        return Err(Fail::from("not loaded"));
    };
    if starts && signer.sign(&mut keeper, joined.start_text(), 0).is_err() {
        return Err(Fail::from("not signed"));
    }
    Ok(signer)
}

#[test]
fn signed_texts_want_no_key(rt: HostRuntime) -> Result<(), Fail> {
    let joined = broker(rt.alloc(), 1)?;
    let signer = signer_of_bob(rt.alloc(), &joined, true)?;
    assert!(rt; joined.unsigned(&signer) == 5 && joined.acts_open(&signer) == 3);
    assert!(rt; joined.issued(&signer) == 0 && !joined.has_voted(&signer));
    Ok(())
}

const WHOLE: Told = Told {
    at: 5,
    moves: 1,
    coins: 1,
    settled: None,
};

const SETTLED: Told = Told {
    at: 6,
    moves: 1,
    coins: 1,
    settled: Some(Outcome::Abort),
};

#[test]
fn one_statement_is_kept(rt: HostRuntime) -> Result<(), Fail> {
    let deal = Id([9; 32]);
    let mut heard = Vec::new(rt.alloc());
    keep(&mut heard, on_coins(rt.alloc(), deal, &WHOLE)?)?;
    keep(&mut heard, on_coins(rt.alloc(), deal, &SETTLED)?)?;
    assert!(rt; heard.len() == 1 && is_settled_in(&heard, &deal));
    assert!(rt; kept_of(&heard, &deal, &name("tickets")?).is_none());
    Ok(())
}
