use crate::broker::{Told, WHOLE, agent, join, key_of, on_coins, open, put, put_heard, put_key};
use agent_core::{Agent, Todo};
use clear_core::PlanAct;
use dh_base::{Id, Outcome};
use keeper_core::MemKeeper;
use std::alloc::{AllocError, Global};
use std::test::Fail;

/// Adds the key by which the next act is signed as a line, or that all are.
fn put_next(
    alloc: Global,
    lines: &mut String,
    alice: &mut Agent<MemKeeper>,
    deal: &Id,
) -> Result<(), Fail> {
    match alice.next(deal) {
        Ok(Todo::Give { act: _, env }) => put_key(alloc, lines, Ok(env)),
        Ok(Todo::Nothing) => {
            lines.push_str("nothing\n")?;
            Ok(())
        }
        Err(fault) => put_key(alloc, lines, Err(fault)),
    }
}

/// The three acts of the broker's plan are signed.
fn plan_signed(alloc: Global, alice: &mut Agent<MemKeeper>, deal: &Id) -> Result<String, Fail> {
    let mut lines = String::new(alloc);
    for _ in 0..4u8 {
        put_next(alloc, &mut lines, alice, deal)?;
    }
    Ok(lines)
}

/// The start and the commit, once coins has told all that she is owed; and no act behind it.
fn deal_voted(alloc: Global, alice: &mut Agent<MemKeeper>, deal: &Id) -> Result<String, Fail> {
    let mut lines = String::new(alloc);
    put_key(alloc, &mut lines, alice.start(deal))?;
    let whole = on_coins(alloc, *deal, &WHOLE)?;
    put_heard(alloc, &mut lines, alice, &whole)?;
    let before = on_coins(alloc, *deal, &Told { at: 4, ..WHOLE })?;
    put_heard(alloc, &mut lines, alice, &before)?;
    put_key(alloc, &mut lines, alice.vote_commit(deal))?;
    put_key(alloc, &mut lines, alice.vote_commit(deal))?;
    put_next(alloc, &mut lines, alice, deal)?;
    Ok(lines)
}

#[test]
fn a_broker_commits(rt: HostRuntime) -> Result<(), Fail> {
    let alloc = rt.alloc();
    let mut alice = agent(alloc)?;
    let deal = join(alloc, &mut alice)?;
    let plan = plan_signed(alloc, &mut alice, &deal)?;
    assert!(rt; plan.as_str() == "key 0\nkey 1\nkey 2\nnothing\n");
    let votes = deal_voted(alloc, &mut alice, &deal)?;
    assert!(rt; votes.as_str() == "key 3\nkept\nolder 5\nkey 4\nkey 4\n8 Voted\n");
    Ok(())
}

/// The text of alice's abort.
fn abort_text(alloc: Global, deal: &Id) -> Result<Vec<u8>, AllocError> {
    let mut text = Vec::new(alloc);
    text.extend_from_slice(b"CCDACT01\x06")?;
    text.extend_from_slice(&deal.0)?;
    text.extend_from_slice(b"\x00\x00\x03")?;
    Ok(text)
}

/// An agent that has joined the broker's deal, signed its plan, and heard what coins tells.
fn ready(alloc: Global) -> Result<(Agent<MemKeeper>, Id), Fail> {
    let mut alice = agent(alloc)?;
    let deal = join(alloc, &mut alice)?;
    let _ = plan_signed(alloc, &mut alice, &deal)?;
    let whole = on_coins(alloc, deal, &WHOLE)?;
    let _ = alice.hear(&whole);
    Ok((alice, deal))
}

#[test]
fn an_abort_is_voted_as_the_first_party(rt: HostRuntime) -> Result<(), Fail> {
    let alloc = rt.alloc();
    let mut alice = agent(alloc)?;
    let deal = join(alloc, &mut alice)?;
    let Ok(env) = alice.vote_abort(&deal) else {
        return Err(Fail::from("no abort"));
    };
    assert!(rt; env.message.as_slice() == abort_text(alloc, &deal)?.as_slice());
    Ok(())
}

#[test]
fn an_opened_agent_has_its_texts_and_heard_nothing(rt: HostRuntime) -> Result<(), Fail> {
    let alloc = rt.alloc();
    let (alice, deal) = ready(alloc)?;
    let mut alice = open(alloc, alice.close())?;
    let mut lines = String::new(alloc);
    put_key(alloc, &mut lines, alice.again(&deal, 2))?;
    put_key(alloc, &mut lines, alice.vote_commit(&deal))?;
    assert!(rt; lines.as_str() == "key 2\n13 NotValidated coins coin 0 1\n");
    Ok(())
}

/// Ticks before the deadline, at it, and once the deal is heard aborted.
fn ticks(alloc: Global, alice: &mut Agent<MemKeeper>, deal: &Id) -> Result<String, Fail> {
    let mut lines = String::new(alloc);
    put_tick(alloc, &mut lines, alice, deal, 49)?;
    put_tick(alloc, &mut lines, alice, deal, 50)?;
    let settled = Told {
        settled: Some(Outcome::Abort),
        ..WHOLE
    };
    let statement = on_coins(alloc, *deal, &settled)?;
    put_heard(alloc, &mut lines, alice, &statement)?;
    put_tick(alloc, &mut lines, alice, deal, 51)?;
    put(alloc, &mut lines, alice.vote_commit(deal).err())?;
    Ok(lines)
}

fn put_tick(
    alloc: Global,
    lines: &mut String,
    alice: &mut Agent<MemKeeper>,
    deal: &Id,
    now: u64,
) -> Result<(), Fail> {
    match alice.tick(deal, now) {
        Ok(Some(env)) => put_key(alloc, lines, Ok(env)),
        Ok(None) => {
            lines.push_str("none\n")?;
            Ok(())
        }
        Err(fault) => put_key(alloc, lines, Err(fault)),
    }
}

#[test]
fn an_abort_is_given_at_the_deadline(rt: HostRuntime) -> Result<(), Fail> {
    let alloc = rt.alloc();
    let mut alice = agent(alloc)?;
    let deal = join(alloc, &mut alice)?;
    let lines = ticks(alloc, &mut alice, &deal)?;
    assert!(rt; lines.as_str() == "none\nkey 0\nkept\nnone\n10 AbortSigned\n");
    Ok(())
}

#[test]
fn the_first_act_registers_the_deal(rt: HostRuntime) -> Result<(), Fail> {
    let alloc = rt.alloc();
    let mut alice = agent(alloc)?;
    let deal = join(alloc, &mut alice)?;
    let Ok(Todo::Give { act, env }) = alice.next(&deal) else {
        return Err(Fail::from("no act"));
    };
    assert!(rt; matches!(act, PlanAct::Register));
    assert!(rt; env.message.as_slice().starts_with(b"CCDACT01\x01"));
    Ok(())
}
