//! Registrations over a keeper in memory. A test compares the replies, a line each.

use dh_base::{Id, digest};
use keeper_core::{Arm, Batch, Keeper, MemKeeper};
use ledger_acts::place::Place;
use ledger_acts::registering::register;
use ledger_acts::signed::Signed;
use ledger_rows::{DEAL_TAB, count_open, read_registration};
use std::alloc::Global;
use std::test::Fail;

const HOUSE: Id = Id([0x11; 32]);

const ANN: Id = Id([0x22; 32]);

const BEN: Id = Id([0x44; 32]);

const CAY: Id = Id([0x55; 32]);

/// The text of a deal of that house between Ann and Ben.
fn text_in(alloc: Global, house: Id, number: u32) -> Result<String, Fail> {
    let ann = ANN;
    let ben = BEN;
    let text = format!(in alloc;
        "deal d{number}\nhouse {house}\nparty ann {ann}\nparty ben {ben}\nstep ann ben coins coin 1\nstep ben ann coins coin 1\n"
    )?;
    Ok(text)
}

/// What a ledger of the house that accepted so many acts replies to the account that registers the
/// text.
fn reply(
    alloc: Global,
    keeper: &mut MemKeeper,
    acts: u32,
    account: Id,
    text: &str,
) -> Result<String, Fail> {
    let place = Place {
        number: u64::from(acts) + 1,
        acts,
    };
    let signed = Signed {
        account,
        q: acts,
        message: text.as_bytes(),
    };
    match register(alloc, keeper, &place, &signed, &HOUSE, text.as_bytes()) {
        Ok(()) => Ok(String::from_str(alloc, "registered\n")?),
        Err(fault) => Ok(format!(in alloc; "{fault}\n")?),
    }
}

/// Who registered the text, where its deal is open.
fn registrant(alloc: Global, keeper: &mut MemKeeper, text: &str) -> Result<Option<Id>, Fail> {
    match read_registration(alloc, keeper, &digest(text.as_bytes()))? {
        Some(deal) if deal.settled.is_none() => Ok(Some(deal.registrant)),
        _ => Ok(None),
    }
}

/// How many open deals Ann and Ben registered.
fn open_deals(keeper: &mut MemKeeper) -> Result<(usize, usize), Fail> {
    Ok((count_open(keeper, &ANN)?, count_open(keeper, &BEN)?))
}

#[test]
fn a_registered_deal_stays(rt: HostRuntime) -> Result<(), Fail> {
    let alloc = rt.alloc();
    let mut keeper = MemKeeper::new(alloc);
    let text = text_in(alloc, HOUSE, 1)?;
    assert!(rt; reply(alloc, &mut keeper, 0, ANN, &text)?.as_str() == "registered\n");
    assert!(rt; reply(alloc, &mut keeper, 1, BEN, &text)?.as_str() == "registered\n");
    assert!(rt; registrant(alloc, &mut keeper, &text)? == Some(ANN));
    assert!(rt; open_deals(&mut keeper)? == (1, 0));
    Ok(())
}

/// What a ledger that accepted so many acts, and has no deal, replies.
fn first_reply(alloc: Global, acts: u32, account: Id, text: &str) -> Result<String, Fail> {
    reply(alloc, &mut MemKeeper::new(alloc), acts, account, text)
}

#[test]
fn texts_that_are_not_registered(rt: HostRuntime) -> Result<(), Fail> {
    let alloc = rt.alloc();
    let stranger = CAY;
    let elsewhere = text_in(alloc, CAY, 1)?;
    let wrong_house = format!(in alloc; "6 WrongHouse {stranger}\n")?;
    assert!(rt; first_reply(alloc, 0, ANN, "no deal\n")?.as_str() == "5 BadDeal 1 BadLine 1\n");
    assert!(rt; first_reply(alloc, 0, ANN, &elsewhere)? == wrong_house);
    assert!(rt; first_reply(alloc, 0, CAY, &elsewhere)? == wrong_house);
    Ok(())
}

#[test]
fn deals_that_are_not_registered(rt: HostRuntime) -> Result<(), Fail> {
    let alloc = rt.alloc();
    let stranger = CAY;
    let text = text_in(alloc, HOUSE, 1)?;
    let not_a_party = format!(in alloc; "8 NotAParty {stranger}\n")?;
    assert!(rt; first_reply(alloc, 0, CAY, &text)? == not_a_party);
    let full = first_reply(alloc, 1_000_000, ANN, &text)?;
    assert!(rt; full.as_str() == "14 LedgerFull 1000000\n");
    Ok(())
}

#[test]
fn a_keeper_that_stops_registers_nothing(rt: HostRuntime) -> Result<(), Fail> {
    let alloc = rt.alloc();
    let mut keeper = MemKeeper::new(alloc);
    let text = text_in(alloc, HOUSE, 1)?;
    keeper.arm(Arm::StopBefore);
    assert!(rt; reply(alloc, &mut keeper, 0, ANN, &text)?.as_str() == "15 Store 1 Keeper\n");
    keeper.restart();
    assert!(rt; open_deals(&mut keeper)? == (0, 0));
    Ok(())
}

#[test]
fn a_row_without_its_form_is_named(rt: HostRuntime) -> Result<(), Fail> {
    let alloc = rt.alloc();
    let mut keeper = MemKeeper::new(alloc);
    let mut batch = Batch::new(alloc);
    batch.put(DEAL_TAB, b"key", b"short")?;
    keeper.commit(&batch)?;
    let key = digest(b"key");
    let wanted = format!(in alloc; "15 Store 2 BadRow 3 {key}\n")?;
    assert!(rt; reply(alloc, &mut keeper, 0, ANN, &text_in(alloc, HOUSE, 1)?)? == wanted);
    Ok(())
}

/// A keeper with so many open deals that Ann registered.
fn with_deals(alloc: Global, deals: u32) -> Result<MemKeeper, Fail> {
    let mut keeper = MemKeeper::new(alloc);
    for number in 0..deals {
        let _told = reply(
            alloc,
            &mut keeper,
            number,
            ANN,
            &text_in(alloc, HOUSE, number)?,
        )?;
    }
    Ok(keeper)
}

#[test]
fn sixty_four_open_deals(rt: HostRuntime) -> Result<(), Fail> {
    let alloc = rt.alloc();
    let mut keeper = with_deals(alloc, 64)?;
    let first = text_in(alloc, HOUSE, 0)?;
    let next = text_in(alloc, HOUSE, 64)?;
    assert!(rt; reply(alloc, &mut keeper, 64, ANN, &next)?.as_str() == "9 DealsFull 64\n");
    assert!(rt; reply(alloc, &mut keeper, 64, ANN, &first)?.as_str() == "registered\n");
    assert!(rt; reply(alloc, &mut keeper, 65, BEN, &next)?.as_str() == "registered\n");
    assert!(rt; reply(alloc, &mut keeper, 66, ANN, &next)?.as_str() == "registered\n");
    Ok(())
}
