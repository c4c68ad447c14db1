//! Movements under their keys, over a keeper in memory: each refusal with its fields. A test asks
//! for a course of acts and compares the replies, a line each.

use act_text::Act;
use dh_base::{Id, List, Name, Outcome, digest};
use keeper_core::{Batch, Keeper, MemKeeper};
use ledger_acts::ledger_id::LedgerId;
use ledger_acts::once::{move_once, movement_of};
use ledger_acts::place::Place;
use ledger_acts::signed::Signed;
use ledger_rows::{
    Hold, Registration, put_free, put_hold, put_moves, put_registration, read_free, read_hold,
    read_moves,
};
use std::alloc::Global;
use std::test::Fail;

const HOUSE: Id = Id([0x11; 32]);

const ANN: Id = Id([0x22; 32]);

const BEN: Id = Id([0x44; 32]);

const CAY: Id = Id([0x55; 32]);

fn coin() -> Result<Name, Fail> {
    Ok(Name::from_bytes(b"coin")?)
}

fn coins() -> Result<LedgerId, Fail> {
    Ok(LedgerId {
        name: Name::from_bytes(b"coins")?,
        house: HOUSE,
    })
}

/// The text of a deal between Ann and Ben.
fn text(alloc: Global) -> Result<Vec<u8>, Fail> {
    let (house, ann, ben) = (HOUSE, ANN, BEN);
    let text = format!(in alloc;
        "deal swap\nhouse {house}\nparty ann {ann}\nparty ben {ben}\nstep ann ben coins coin 1\nstep ben ann coins coin 1\n"
    )?;
    Ok(Vec::from_slice(alloc, text.as_bytes())?)
}

fn deal(alloc: Global) -> Result<Id, Fail> {
    Ok(digest(text(alloc)?.as_slice()))
}

/// A keeper with the deal, of which Ann can spend 10, and owns 5 in the deal after one transfer.
fn with_deal(alloc: Global, settled: Option<Outcome>) -> Result<MemKeeper, Fail> {
    let deal = deal(alloc)?;
    let registration = Registration {
        registrant: ANN,
        settled,
        text: List::from_vec(text(alloc)?),
    };
    let hold = Hold {
        commit: 5,
        abort: 8,
    };
    let mut batch = Batch::new(alloc);
    put_registration(alloc, &mut batch, &deal, &registration)?;
    put_free(alloc, &mut batch, &ANN, &coin()?, 10)?;
    put_hold(alloc, &mut batch, &deal, &ANN, &coin()?, &hold)?;
    put_moves(alloc, &mut batch, &deal, &ANN, 1)?;
    let mut keeper = MemKeeper::new(alloc);
    keeper.commit(&batch)?;
    Ok(keeper)
}

/// An act that the account asks for, of a ledger that accepted so many.
#[derive(Drop)]
struct Asked {
    acts: u32,
    account: Id,
    act: Act,
}

/// The account asks for it of a ledger that accepted none.
fn by(account: Id, act: Act) -> Asked {
    Asked {
        acts: 0,
        account,
        act,
    }
}

/// What the ledger of coins replies.
fn reply(alloc: Global, keeper: &mut MemKeeper, asked: &Asked) -> Result<String, Fail> {
    let place = Place {
        number: 7,
        acts: asked.acts,
    };
    let signed = Signed {
        account: asked.account,
        q: 3,
        message: b"act",
    };
    let Some(movement) = movement_of(&asked.account, &asked.act) else {
        return Err(Fail::from("no movement"));
    };
    match move_once(
        alloc,
        keeper,
        &coins()?,
        &place,
        &signed,
        &asked.act,
        &movement,
    ) {
        Ok(number) => Ok(format!(in alloc; "{number}\n")?),
        Err(fault) => Ok(format!(in alloc; "{fault}\n")?),
    }
}

/// What it replies to each, a line each.
fn replies(alloc: Global, keeper: &mut MemKeeper, course: &[Asked]) -> Result<String, Fail> {
    let mut told = String::new(alloc);
    for asked in course {
        told.push_str(&reply(alloc, keeper, asked)?)?;
    }
    Ok(told)
}

/// What the account can spend.
fn free(alloc: Global, keeper: &mut MemKeeper, account: &Id) -> Result<u64, Fail> {
    Ok(read_free(alloc, keeper, account, &coin()?)?)
}

/// What the account would have by each outcome of the deal.
fn held(alloc: Global, keeper: &mut MemKeeper, account: &Id) -> Result<(u64, u64), Fail> {
    let hold = read_hold(alloc, keeper, &deal(alloc)?, account, &coin()?)?;
    Ok((hold.commit, hold.abort))
}

fn pay(ledger: &[u8], house: Id, to: Id, amount: u64) -> Result<Act, Fail> {
    Ok(Act::Pay {
        house,
        ledger: Name::from_bytes(ledger)?,
        to,
        asset: coin()?,
        amount,
    })
}

fn escrow(deal: Id, amount: u64) -> Result<Act, Fail> {
    Ok(Act::Escrow {
        deal,
        ledger: Name::from_bytes(b"coins")?,
        asset: coin()?,
        amount,
    })
}

fn transfer(deal: Id, turn: u32, to: Id, amount: u64) -> Result<Act, Fail> {
    Ok(Act::Transfer {
        deal,
        ledger: Name::from_bytes(b"coins")?,
        turn,
        to,
        asset: coin()?,
        amount,
    })
}

#[test]
fn refused_payments(rt: HostRuntime) -> Result<(), Fail> {
    let alloc = rt.alloc();
    let full = Asked {
        acts: 1_000_000,
        account: ANN,
        act: pay(b"coins", HOUSE, BEN, 10)?,
    };
    let course = [
        by(ANN, pay(b"nuts", CAY, ANN, 0)?),
        by(ANN, pay(b"coins", CAY, ANN, 0)?),
        by(ANN, pay(b"coins", HOUSE, ANN, 11)?),
        by(ANN, pay(b"coins", HOUSE, BEN, 11)?),
        full,
    ];
    let named = CAY;
    let wanted = format!(in alloc;
        "4 WrongLedger nuts\n6 WrongHouse {named}\n12 ZeroOrSelf\n13 Short 10\n14 LedgerFull 1000000\n"
    )?;
    assert!(rt; replies(alloc, &mut with_deal(alloc, None)?, &course)? == wanted);
    Ok(())
}

#[test]
fn a_payment_moves_what_is_free(rt: HostRuntime) -> Result<(), Fail> {
    let alloc = rt.alloc();
    let mut keeper = with_deal(alloc, None)?;
    let last = Asked {
        acts: 999_999,
        account: ANN,
        act: pay(b"coins", HOUSE, BEN, 10)?,
    };
    assert!(rt; reply(alloc, &mut keeper, &last)?.as_str() == "7\n");
    assert!(rt; free(alloc, &mut keeper, &BEN)? == 10);
    Ok(())
}

#[test]
fn refused_escrows(rt: HostRuntime) -> Result<(), Fail> {
    let alloc = rt.alloc();
    let deal = deal(alloc)?;
    let course = [
        by(CAY, escrow(CAY, 0)?),
        by(CAY, escrow(deal, 0)?),
        by(ANN, escrow(deal, 0)?),
        by(ANN, escrow(deal, 11)?),
    ];
    let stranger = CAY;
    let wanted = format!(in alloc;
        "7 UnknownDeal\n8 NotAParty {stranger}\n12 ZeroOrSelf\n13 Short 10\n"
    )?;
    assert!(rt; replies(alloc, &mut with_deal(alloc, None)?, &course)? == wanted);
    Ok(())
}

#[test]
fn an_escrow_adds_to_both_outcomes(rt: HostRuntime) -> Result<(), Fail> {
    let alloc = rt.alloc();
    let mut keeper = with_deal(alloc, None)?;
    let four = by(ANN, escrow(deal(alloc)?, 4)?);
    assert!(rt; reply(alloc, &mut keeper, &four)?.as_str() == "7\n");
    assert!(rt; free(alloc, &mut keeper, &ANN)? == 6);
    assert!(rt; held(alloc, &mut keeper, &ANN)? == (9, 12));
    Ok(())
}

#[test]
fn refused_transfers(rt: HostRuntime) -> Result<(), Fail> {
    let alloc = rt.alloc();
    let deal = deal(alloc)?;
    let course = [
        by(ANN, transfer(deal, 0, CAY, 0)?),
        by(ANN, transfer(deal, 0, ANN, 0)?),
        by(ANN, transfer(deal, 1, ANN, 6)?),
        by(ANN, transfer(deal, 1, BEN, 6)?),
    ];
    let stranger = CAY;
    let wanted = format!(in alloc;
        "8 NotAParty {stranger}\n11 WrongTurn 1\n12 ZeroOrSelf\n13 Short 5\n"
    )?;
    assert!(rt; replies(alloc, &mut with_deal(alloc, None)?, &course)? == wanted);
    Ok(())
}

#[test]
fn a_transfer_moves_what_a_commit_gives(rt: HostRuntime) -> Result<(), Fail> {
    let alloc = rt.alloc();
    let mut keeper = with_deal(alloc, None)?;
    let deal = deal(alloc)?;
    let five = by(ANN, transfer(deal, 1, BEN, 5)?);
    assert!(rt; reply(alloc, &mut keeper, &five)?.as_str() == "7\n");
    assert!(rt; held(alloc, &mut keeper, &ANN)? == (0, 8));
    assert!(rt; held(alloc, &mut keeper, &BEN)? == (5, 0));
    assert!(rt; read_moves(alloc, &mut keeper, &deal, &ANN)? == 2);
    Ok(())
}

#[test]
fn settled_deals_take_no_more(rt: HostRuntime) -> Result<(), Fail> {
    let alloc = rt.alloc();
    let deal = deal(alloc)?;
    let course = [
        by(ANN, escrow(deal, 0)?),
        by(ANN, transfer(deal, 0, ANN, 0)?),
    ];
    let mut keeper = with_deal(alloc, Some(Outcome::Abort))?;
    let told = replies(alloc, &mut keeper, &course)?;
    assert!(rt; told.as_str() == "10 DealSettled abort\n10 DealSettled abort\n");
    Ok(())
}
