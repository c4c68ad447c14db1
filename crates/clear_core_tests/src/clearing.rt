ghost use Rattle.std.specs.Prelude.{◌≤◌, ◌<◌, length, IfOk};

use clear_core::{Limit, PlanAct, Terms, check_terms, clearing_text, due, need, plan, turns};
use deal_core::{Deal, read_deal};
use dh_base::{BaseFault, List, Name};
use std::alloc::{AllocError, Global};
use std::test::Fail;

const RING: &str = "deal ring
house 0000000000000000000000000000000000000000000000000000000000000000
party a 1111111111111111111111111111111111111111111111111111111111111111
party b 2222222222222222222222222222222222222222222222222222222222222222
party c 3333333333333333333333333333333333333333333333333333333333333333
step a b bank gold 5
step b c bank gold 5
step c a bank gold 5
";

const BROKER: &str = "deal d
house 0000000000000000000000000000000000000000000000000000000000000000
party alice 1111111111111111111111111111111111111111111111111111111111111111
party bob 2222222222222222222222222222222222222222222222222222222222222222
party carol 3333333333333333333333333333333333333333333333333333333333333333
step bob alice tickets ticket 1
step alice carol tickets ticket 1
step carol alice coins coin 101
step alice bob coins coin 100
step carol bob coins coin 7
step carol bob tickets stub 1
";

/// The deal of a text, which has three parties.
fn deal_of(alloc: Global, text: &str) -> Result<Deal, Fail>
    ensures { IfOk result (λ deal. 3 ≤ length deal.parties) }
{
    match read_deal(alloc, text.as_bytes()) {
        Ok(deal) => {
            if deal.parties().len() < 3 {
                return Err(Fail::from("too few parties"));
            }
            Ok(deal)
        }
        Err(_) => Err(Fail::from("not read")),
    }
}

fn name(text: &str) -> Result<Name, BaseFault> {
    Name::from_bytes(text.as_bytes())
}

/// What the party needs of the asset there, what it is due of it, and how many turns it has there.
fn sums(alloc: Global, deal: &Deal, party: u16, ledger: &str, asset: &str) -> Result<String, Fail>
    requires { party < length deal.now.parties }
{
    let (ledger, asset) = (name(ledger)?, name(asset)?);
    let needed = need(deal, party, &ledger, &asset);
    let owed = due(deal, party, &ledger, &asset);
    let turns = turns(deal, party, &ledger);
    Ok(format!(in alloc; "needs {needed} due {owed} turns {turns}")?)
}

#[test]
fn a_ring_needs_its_first_payment(rt: HostRuntime) -> Result<(), Fail> {
    let alloc = rt.alloc();
    let deal = deal_of(alloc, RING)?;
    let first = sums(alloc, &deal, 0, "bank", "gold")?;
    assert!(rt; first.as_str() == "needs 5 due 5 turns 1");
    let second = sums(alloc, &deal, 1, "bank", "gold")?;
    assert!(rt; second.as_str() == "needs 0 due 0 turns 1");
    Ok(())
}

#[test]
fn a_broker_needs_nothing(rt: HostRuntime) -> Result<(), Fail> {
    let alloc = rt.alloc();
    let deal = deal_of(alloc, BROKER)?;
    let coins = sums(alloc, &deal, 0, "coins", "coin")?;
    assert!(rt; coins.as_str() == "needs 0 due 1 turns 1");
    let tickets = sums(alloc, &deal, 0, "tickets", "ticket")?;
    assert!(rt; tickets.as_str() == "needs 0 due 0 turns 1");
    Ok(())
}

#[test]
fn a_seller_needs_what_it_sells(rt: HostRuntime) -> Result<(), Fail> {
    let alloc = rt.alloc();
    let deal = deal_of(alloc, BROKER)?;
    let coins = sums(alloc, &deal, 1, "coins", "coin")?;
    assert!(rt; coins.as_str() == "needs 0 due 107 turns 0");
    let tickets = sums(alloc, &deal, 1, "tickets", "ticket")?;
    assert!(rt; tickets.as_str() == "needs 1 due 0 turns 1");
    Ok(())
}

#[test]
fn a_buyer_needs_what_it_pays(rt: HostRuntime) -> Result<(), Fail> {
    let alloc = rt.alloc();
    let deal = deal_of(alloc, BROKER)?;
    let coins = sums(alloc, &deal, 2, "coins", "coin")?;
    assert!(rt; coins.as_str() == "needs 108 due 0 turns 2");
    let tickets = sums(alloc, &deal, 2, "tickets", "ticket")?;
    assert!(rt; tickets.as_str() == "needs 0 due 1 turns 1");
    Ok(())
}

/// The act in words.
fn told(alloc: Global, act: &PlanAct) -> Result<String, AllocError> {
    match act {
        PlanAct::Register => format!(in alloc; "register"),
        PlanAct::Escrow {
            ledger,
            asset,
            amount,
        } => format!(in alloc; "escrow {ledger} {asset} {amount}"),
        PlanAct::Transfer {
            ledger,
            turn,
            to,
            asset,
            amount,
        } => format!(in alloc; "transfer {ledger} {turn} {to} {asset} {amount}"),
    }
}

const PLAN: &str = "register
escrow coins coin 108
escrow tickets stub 1
transfer coins 0 0 coin 101
transfer coins 1 1 coin 7
transfer tickets 0 1 stub 1
";

#[test]
fn a_plan_registers_escrows_and_transfers(rt: HostRuntime) -> Result<(), Fail> {
    let alloc = rt.alloc();
    let deal = deal_of(alloc, BROKER)?;
    let acts = plan(alloc, &deal, 2)?;
    let mut lines = String::new(alloc);
    for act in acts.as_slice() {
        let line = told(alloc, act)?;
        lines.push_str(line.as_str())?;
        lines.push_str("\n")?;
    }
    assert_eq!(rt; lines.as_str(), PLAN);
    Ok(())
}

/// Limits of gold at the bank, three at most.
fn limits(alloc: Global, amounts: &[u64]) -> Result<List<Limit>, Fail>
    ensures { IfOk result (λ limits. length limits ≤ 3) }
{
    let mut limits = Vec::new(alloc);
    for amount in amounts {
        limits.push(Limit {
            ledger: name("bank")?,
            asset: name("gold")?,
            amount: *amount,
        })?;
    }
    let limits = List::from_vec(limits);
    if limits.len() > 3 {
        return Err(Fail::from("too many limits"));
    }
    Ok(limits)
}

/// What checking the ring answers its first party, who gives and gets these amounts.
fn checked(alloc: Global, gives: &[u64], gets: &[u64]) -> Result<String, Fail> {
    let deal = deal_of(alloc, RING)?;
    let terms = Terms {
        gives: limits(alloc, gives)?,
        gets: limits(alloc, gets)?,
        deadline: 50,
    };
    match check_terms(&deal, 0, &terms) {
        Ok(()) => Ok(format!(in alloc; "kept")?),
        Err(fault) => Ok(format!(in alloc; "{fault}")?),
    }
}

#[test]
fn terms_limits(rt: HostRuntime) -> Result<(), Fail> {
    let alloc = rt.alloc();
    let more = checked(alloc, &[4], &[])?;
    assert!(rt; more.as_str() == "1 GivesMore bank gold 5 4");
    let unnamed = checked(alloc, &[], &[6])?;
    assert!(rt; unnamed.as_str() == "1 GivesMore bank gold 5 0");
    let less = checked(alloc, &[5], &[6])?;
    assert!(rt; less.as_str() == "2 GetsLess bank gold 5 6");
    Ok(())
}

#[test]
fn terms_within_their_limits_are_kept(rt: HostRuntime) -> Result<(), Fail> {
    let alloc = rt.alloc();
    assert!(rt; checked(alloc, &[5], &[5])?.as_str() == "kept");
    assert!(rt; checked(alloc, &[2, 3], &[5, 5, 1])?.as_str() == "kept");
    Ok(())
}

const RING_CLEARED: &str = "
matrix a b bank gold 5
matrix b c bank gold 5
matrix c a bank gold 5
need a bank gold 5
due a bank gold 5
";

#[test]
fn clear_ring(rt: HostRuntime) -> Result<(), Fail> {
    let alloc = rt.alloc();
    let deal = deal_of(alloc, RING)?;
    let id = deal.id;
    let expected = format!(in alloc; "deal ring\nid {id}{RING_CLEARED}")?;
    let text = clearing_text(alloc, &deal)?;
    assert!(rt; text.as_slice() == expected.as_bytes());
    Ok(())
}
