use crate::broker::{
    HOUSE, WHOLE, agent, alice, answer_text, deal_text, join, join_told, keys, on_coins, open,
    terms,
};
use agent_core::{Agent, AgentOpenFault};
use dh_base::Id;
use failing_keeper::FailingKeeper;
use keeper_core::{Arm, MemKeeper};
use std::alloc::Global;
use std::test::Fail;

/// Alice's agent has joined the broker's deal, signed its plan and heard what coins tells.
fn ready(alloc: Global) -> Result<(Agent<MemKeeper>, Id), Fail> {
    let mut agent = agent(alloc)?;
    let deal = join(alloc, &mut agent)?;
    for _ in 0..3u8 {
        let _ = agent.next(&deal);
    }
    let whole = on_coins(alloc, deal, &WHOLE)?;
    let _ = agent.hear(&whole);
    Ok((agent, deal))
}

/// The keeper of the agent, started again.
fn restarted(agent: Agent<MemKeeper>) -> MemKeeper {
    let mut keeper = agent.close();
    keeper.restart();
    keeper
}

#[test]
fn an_agent_stops_behind_its_commit(rt: HostRuntime) -> Result<(), Fail> {
    let alloc = rt.alloc();
    let (mut agent, deal) = ready(alloc)?;
    agent.arm(Arm::StopAfter);
    assert!(rt;
        answer_text(alloc, agent.vote_commit(&deal).err())?.as_str() == "17 Store 1 Keeper"
    );
    let mut agent = open(alloc, restarted(agent))?;
    assert!(rt; answer_text(alloc, agent.vote_commit(&deal).err())?.as_str() == "ok");
    Ok(())
}

#[test]
fn an_agent_stops_before_its_commit(rt: HostRuntime) -> Result<(), Fail> {
    let alloc = rt.alloc();
    let (mut agent, deal) = ready(alloc)?;
    agent.arm(Arm::StopBefore);
    assert!(rt;
        answer_text(alloc, agent.vote_commit(&deal).err())?.as_str() == "17 Store 1 Keeper"
    );
    let mut agent = open(alloc, restarted(agent))?;
    let unseen = answer_text(alloc, agent.vote_commit(&deal).err())?;
    assert!(rt; unseen.as_str() == "13 NotValidated coins coin 0 1");
    let whole = on_coins(alloc, deal, &WHOLE)?;
    let _ = agent.hear(&whole);
    assert!(rt; answer_text(alloc, agent.vote_commit(&deal).err())?.as_str() == "ok");
    Ok(())
}

/// What an opening is answered whose keeper's call behind so many others fails, and the keeper.
fn opened(alloc: Global, keeper: FailingKeeper, calls: u32) -> Result<FailingKeeper, Fail> {
    let mut keeper = keeper;
    keeper.fail_behind(calls);
    match Agent::open(alloc, keeper, &keys(), &HOUSE) {
        Ok(_) => Err(Fail::from("opened")),
        Err(refused) => {
            let fault = format!(in alloc; "{}", refused.fault)?;
            if fault.as_str() != "2 Store 1 Keeper" {
                return Err(Fail::from("another fault"));
            }
            Ok(refused.keeper)
        }
    }
}

#[test]
fn each_call_of_an_opening_fails(rt: HostRuntime) -> Result<(), Fail> {
    let alloc = rt.alloc();
    let mut keeper = FailingKeeper::new(alloc);
    for calls in 0..4u32 {
        keeper = opened(alloc, keeper, calls)?;
    }
    let mut agent = open(alloc, keeper)?;
    join(alloc, &mut agent)?;
    let mut keeper = agent.close();
    for calls in 0..3u32 {
        keeper = opened(alloc, keeper, calls)?;
    }
    Ok(())
}

#[test]
fn a_join_whose_commit_fails_joins_nothing(rt: HostRuntime) -> Result<(), Fail> {
    let alloc = rt.alloc();
    let mut agent = agent(alloc)?;
    let text = deal_text(alloc, "d", HOUSE, alice(alloc)?)?;
    let terms = terms(alloc, 1)?;
    agent.arm(Arm::FailNext);
    let failed = join_told(alloc, &mut agent, text.as_str(), &terms)?;
    assert!(rt; failed.as_str() == "17 Store 1 Keeper");
    assert!(rt; join_told(alloc, &mut agent, text.as_str(), &terms)?.as_str() == "ok");
    Ok(())
}

#[test]
fn another_agent_is_named(rt: HostRuntime) -> Result<(), Fail> {
    let alloc = rt.alloc();
    let keeper = agent(alloc)?.close();
    let Err(refused) = Agent::open(alloc, keeper, &keys(), &Id([1; 32])) else {
        return Err(Fail::from("opened"));
    };
    assert!(rt; matches!(refused.fault, AgentOpenFault::OtherAgent { .. }));
    Ok(())
}
