use crate::broker::{
    BOB, HOUSE, Told, WHOLE, agent, alice, deal_text, join, join_told, name, on_coins, put,
    put_heard, terms,
};
use agent_core::Agent;
use dh_base::{Id, Outcome};
use keeper_core::MemKeeper;
use std::alloc::Global;
use std::test::Fail;

/// Joins the deal of a text, where so many coins are wanted, and adds the answer as a line.
fn put_join(
    alloc: Global,
    lines: &mut String,
    agent: &mut Agent<MemKeeper>,
    text: &str,
    coins: u64,
) -> Result<(), Fail> {
    let line = join_told(alloc, agent, text, &terms(alloc, coins)?)?;
    lines.push_str(line.as_str())?;
    lines.push_str("\n")?;
    Ok(())
}

/// What joins are answered of no deal, of another house's, of strangers', and of one that pays too
/// little.
fn bad_joins(alloc: Global, agent: &mut Agent<MemKeeper>) -> Result<String, Fail> {
    let own = alice(alloc)?;
    let mut lines = String::new(alloc);
    put_join(alloc, &mut lines, agent, "deal d\n", 1)?;
    let other = deal_text(alloc, "d", BOB, own)?;
    put_join(alloc, &mut lines, agent, other.as_str(), 1)?;
    let strange = deal_text(alloc, "d", HOUSE, HOUSE)?;
    put_join(alloc, &mut lines, agent, strange.as_str(), 1)?;
    let good = deal_text(alloc, "d", HOUSE, own)?;
    put_join(alloc, &mut lines, agent, good.as_str(), 2)?;
    Ok(lines)
}

#[test]
fn bad_joins_are_refused(rt: HostRuntime) -> Result<(), Fail> {
    let alloc = rt.alloc();
    let mut agent = agent(alloc)?;
    let bob = BOB;
    let refusals = format!(in alloc;
        "3 BadDeal 1 BadLine 2\n4 OtherHouse {bob}\n5 NotAParty\n6 Terms 2 GetsLess coins coin 1 2\n"
    )?;
    assert!(rt; bad_joins(alloc, &mut agent)? == refusals);
    Ok(())
}

/// What joins are answered of one deal twice, and of another for which too few keys are left.
fn late_joins(alloc: Global, agent: &mut Agent<MemKeeper>) -> Result<String, Fail> {
    let own = alice(alloc)?;
    let mut lines = String::new(alloc);
    let good = deal_text(alloc, "d", HOUSE, own)?;
    put_join(alloc, &mut lines, agent, good.as_str(), 1)?;
    put_join(alloc, &mut lines, agent, good.as_str(), 1)?;
    let second = deal_text(alloc, "e", HOUSE, own)?;
    put_join(alloc, &mut lines, agent, second.as_str(), 1)?;
    Ok(lines)
}

#[test]
fn a_deal_is_joined_once_and_holds_its_keys(rt: HostRuntime) -> Result<(), Fail> {
    let alloc = rt.alloc();
    let mut agent = agent(alloc)?;
    let lines = late_joins(alloc, &mut agent)?;
    assert!(rt; lines.as_str() == "ok\n2 JoinedAlready\n7 KeysShort 1 6\n");
    Ok(())
}

/// What each call that signs is answered.
fn signings(alloc: Global, agent: &mut Agent<MemKeeper>, deal: &Id) -> Result<String, Fail> {
    let mut lines = String::new(alloc);
    put(alloc, &mut lines, agent.next(deal).err())?;
    put(alloc, &mut lines, agent.again(deal, 0).err())?;
    put(alloc, &mut lines, agent.start(deal).err())?;
    put(alloc, &mut lines, agent.vote_commit(deal).err())?;
    put(alloc, &mut lines, agent.vote_abort(deal).err())?;
    put(alloc, &mut lines, agent.tick(deal, 99).err())?;
    Ok(lines)
}

#[test]
fn deals_that_are_not_joined_are_refused(rt: HostRuntime) -> Result<(), Fail> {
    let alloc = rt.alloc();
    let mut agent = agent(alloc)?;
    let lines = signings(alloc, &mut agent, &Id([5; 32]))?;
    let each = "1 NotJoined\n";
    let refusals = format!(in alloc; "{each}{each}{each}{each}{each}{each}")?;
    assert!(rt; lines == refusals);
    Ok(())
}

/// What statements are answered of another house, on another party, of a ledger and of a deal that
/// the agent has nothing to do with.
fn hearings(alloc: Global, agent: &mut Agent<MemKeeper>, deal: Id) -> Result<String, Fail> {
    let mut lines = String::new(alloc);
    let mut statement = on_coins(alloc, deal, &WHOLE)?;
    statement.house = BOB;
    put_heard(alloc, &mut lines, agent, &statement)?;
    statement.house = HOUSE;
    statement.party = BOB;
    put_heard(alloc, &mut lines, agent, &statement)?;
    statement.party = alice(alloc)?;
    statement.ledger = name("bonds")?;
    put_heard(alloc, &mut lines, agent, &statement)?;
    statement.deal = BOB;
    put_heard(alloc, &mut lines, agent, &statement)?;
    Ok(lines)
}

#[test]
fn statements_are_refused(rt: HostRuntime) -> Result<(), Fail> {
    let alloc = rt.alloc();
    let mut agent = agent(alloc)?;
    let deal = join(alloc, &mut agent)?;
    let bob = BOB;
    let refusals = format!(in alloc;
        "4 OtherHouse {bob}\n15 NotMine {bob}\n16 NotOfDeal bonds\n1 NotJoined\n"
    )?;
    assert!(rt; hearings(alloc, &mut agent, deal)? == refusals);
    Ok(())
}

/// What commits are answered while acts are open.
fn early_commits(alloc: Global, agent: &mut Agent<MemKeeper>, deal: &Id) -> Result<String, Fail> {
    let mut lines = String::new(alloc);
    put(alloc, &mut lines, agent.next(deal).err())?;
    put(alloc, &mut lines, agent.again(deal, 1).err())?;
    put(alloc, &mut lines, agent.vote_commit(deal).err())?;
    put(alloc, &mut lines, agent.next(deal).err())?;
    put(alloc, &mut lines, agent.next(deal).err())?;
    put(alloc, &mut lines, agent.vote_commit(deal).err())?;
    Ok(lines)
}

/// Adds what a commit is answered once that is heard.
fn put_commit(
    alloc: Global,
    lines: &mut String,
    agent: &mut Agent<MemKeeper>,
    deal: &Id,
    heard: &Told,
) -> Result<(), Fail> {
    let statement = on_coins(alloc, *deal, heard)?;
    let _ = agent.hear(&statement);
    put(alloc, lines, agent.vote_commit(deal).err())
}

/// What commits are answered where a move is open, a coin is missing, and the deal is settled.
fn late_commits(alloc: Global, agent: &mut Agent<MemKeeper>, deal: &Id) -> Result<String, Fail> {
    let mut lines = String::new(alloc);
    let unmoved = Told { moves: 0, ..WHOLE };
    put_commit(alloc, &mut lines, agent, deal, &unmoved)?;
    let unpaid = Told { coins: 0, ..WHOLE };
    put_commit(alloc, &mut lines, agent, deal, &unpaid)?;
    let settled = Told {
        settled: Some(Outcome::Abort),
        ..WHOLE
    };
    put_commit(alloc, &mut lines, agent, deal, &settled)?;
    Ok(lines)
}

#[test]
fn commits_are_refused(rt: HostRuntime) -> Result<(), Fail> {
    let alloc = rt.alloc();
    let mut agent = agent(alloc)?;
    let deal = join(alloc, &mut agent)?;
    let early = early_commits(alloc, &mut agent, &deal)?;
    let unheard = "13 NotValidated coins coin 0 1";
    let refusals = format!(in alloc; "ok\n9 NotIssued 1\n11 ActsOpen 2\nok\nok\n{unheard}\n")?;
    assert!(rt; early == refusals);
    let late = late_commits(alloc, &mut agent, &deal)?;
    let refusals = format!(in alloc;
        "14 MovesOpen coins 0 1\n{unheard}\n12 Settled coins abort\n"
    )?;
    assert!(rt; late == refusals);
    Ok(())
}
