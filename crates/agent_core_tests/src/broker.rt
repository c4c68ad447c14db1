//! The broker of a deal of three parties, who keeps a coin of what she passes on.

ghost use Rattle.std.specs.Prelude.{◌≡◌};

use act_text::{HeldRow, Statement};
use agent_core::{Agent, AgentFault, Heard};
use clear_core::{Limit, Terms};
use dh_base::{Id, List, Name, Outcome};
use keeper_core::{Keeper, MemKeeper};
use key_ring::{Envelope, KeySpec, account_of, check, make_ring};
use std::alloc::Global;
use std::test::Fail;

pub(crate) const HOUSE: Id = Id([0x99; 32]);

pub(crate) const BOB: Id = Id([0x22; 32]);

pub(crate) const CAROL: Id = Id([0x33; 32]);

/// Alice's keys: one more than the broker's deal may want.
pub(crate) fn keys() -> KeySpec
    ensures { result.size ≡ 7 }
{
    KeySpec {
        seed: [0x77; 32],
        ident: [0x88; 16],
        size: 7,
    }
}

pub(crate) fn alice(alloc: Global) -> Result<Id, Fail> {
    Ok(account_of(make_ring(alloc, &keys())?.as_slice()))
}

/// The text of the broker's deal of that name in that house. She is its first party.
pub(crate) fn deal_text(alloc: Global, name: &str, house: Id, broker: Id) -> Result<String, Fail> {
    let bob = BOB;
    let carol = CAROL;
    let head = format!(in alloc;
        "deal {name}\nhouse {house}\nparty alice {broker}\nparty bob {bob}\nparty carol {carol}\n"
    )?;
    let text = format!(in alloc;
        "{head}step bob alice tickets ticket 1\nstep alice carol tickets ticket 1\nstep carol alice coins coin 101\nstep alice bob coins coin 100\n"
    )?;
    Ok(text)
}

pub(crate) fn name(text: &str) -> Result<Name, Fail> {
    Ok(Name::from_bytes(text.as_bytes())?)
}

fn limit(ledger: &str, asset: &str, amount: u64) -> Result<Limit, Fail> {
    Ok(Limit {
        ledger: name(ledger)?,
        asset: name(asset)?,
        amount,
    })
}

/// Terms by which at least so many coins are wanted, until the time 50.
pub(crate) fn terms(alloc: Global, coins: u64) -> Result<Terms, Fail> {
    let mut gets = Vec::new(alloc);
    gets.push(limit("coins", "coin", coins)?)?;
    Ok(Terms {
        gives: List::from_vec(Vec::new(alloc)),
        gets: List::from_vec(gets),
        deadline: 50,
    })
}

/// Alice's agent over an empty keeper.
pub(crate) fn agent(alloc: Global) -> Result<Agent<MemKeeper>, Fail> {
    open(alloc, MemKeeper::new(alloc))
}

pub(crate) fn open<K: Keeper + Drop>(alloc: Global, keeper: K) -> Result<Agent<K>, Fail> {
    match Agent::open(alloc, keeper, &keys(), &HOUSE) {
        Ok(agent) => Ok(agent),
        Err(_) => Err(Fail::from("not opened")),
    }
}

/// Joins the broker's deal.
pub(crate) fn join<K: Keeper + Drop>(alloc: Global, agent: &mut Agent<K>) -> Result<Id, Fail> {
    let text = deal_text(alloc, "d", HOUSE, alice(alloc)?)?;
    let Ok(id) = agent.join(text.as_bytes(), &terms(alloc, 1)?) else {
        return Err(Fail::from("not joined"));
    };
    Ok(id)
}

/// What joining the deal of a text is answered.
pub(crate) fn join_told<K: Keeper + Drop>(
    alloc: Global,
    agent: &mut Agent<K>,
    text: &str,
    terms: &Terms,
) -> Result<String, Fail> {
    match agent.join(text.as_bytes(), terms) {
        Ok(_) => Ok(String::from_str(alloc, "ok")?),
        Err(fault) => Ok(format!(in alloc; "{fault}")?),
    }
}

/// What coins tells of alice: at how many entries, her moves, her coins, and whether it is settled.
#[derive(Clone, Copy)]
pub(crate) struct Told {
    pub(crate) at: u64,
    pub(crate) moves: u32,
    pub(crate) coins: u64,
    pub(crate) settled: Option<Outcome>,
}

/// All that she is owed stands there, and her move is made.
pub(crate) const WHOLE: Told = Told {
    at: 5,
    moves: 1,
    coins: 1,
    settled: None,
};

pub(crate) fn on_coins(alloc: Global, deal: Id, told: &Told) -> Result<Statement, Fail> {
    let mut rows = Vec::new(alloc);
    rows.push(HeldRow {
        asset: name("coin")?,
        amount: told.coins,
    })?;
    Ok(Statement {
        house: HOUSE,
        ledger: name("coins")?,
        deal,
        party: alice(alloc)?,
        at: told.at,
        moves: told.moves,
        rows: List::from_vec(rows),
        settled: told.settled,
    })
}

/// The number of the key that says the message of the envelope under alice's account.
pub(crate) fn key_of(alloc: Global, env: &Envelope) -> Result<u32, Fail> {
    match check(env) {
        Ok(said) if said.account == alice(alloc)? => Ok(said.q),
        _ => Err(Fail::from("not said by alice")),
    }
}

/// The text of the refusal, or that there is none.
pub(crate) fn answer_text(alloc: Global, refusal: Option<AgentFault>) -> Result<String, Fail> {
    match refusal {
        None => Ok(String::from_str(alloc, "ok")?),
        Some(fault) => Ok(format!(in alloc; "{fault}")?),
    }
}

/// Adds what a call is answered as a line.
pub(crate) fn put(
    alloc: Global,
    lines: &mut String,
    refusal: Option<AgentFault>,
) -> Result<(), Fail> {
    let line = answer_text(alloc, refusal)?;
    lines.push_str(line.as_str())?;
    lines.push_str("\n")?;
    Ok(())
}

/// Adds the key that has signed the envelope, or the refusal, as a line.
pub(crate) fn put_key(
    alloc: Global,
    lines: &mut String,
    answer: Result<Envelope, AgentFault>,
) -> Result<(), Fail> {
    let line = match answer {
        Ok(env) => {
            let key = key_of(alloc, &env)?;
            format!(in alloc; "key {key}\n")?
        }
        Err(fault) => format!(in alloc; "{fault}\n")?,
    };
    lines.push_str(line.as_str())?;
    Ok(())
}

/// Adds how a statement is heard as a line.
pub(crate) fn put_heard<K: Keeper>(
    alloc: Global,
    lines: &mut String,
    agent: &mut Agent<K>,
    statement: &Statement,
) -> Result<(), Fail> {
    let line = match agent.hear(statement) {
        Ok(Heard::Kept) => String::from_str(alloc, "kept\n")?,
        Ok(Heard::Older { kept }) => format!(in alloc; "older {kept}\n")?,
        Err(fault) => format!(in alloc; "{fault}\n")?,
    };
    lines.push_str(line.as_str())?;
    Ok(())
}
