//! Ledgers over a keeper in memory. A test compares what a ledger tells, as text.

use act_text::{HeldRow, Statement};
use cert_core::read_set;
use dh_base::{Id, List, Name, Outcome};
use keeper_core::{Arm, Batch, Keeper, MemKeeper};
use ledger_core::ledger::Ledger;
use ledger_core::opening::{OpenRow, Opening};
use ledger_rows::{Hold, Registration, put_hold, put_moves, put_registration};
use std::alloc::Global;
use std::test::Fail;

const ANN: Id = Id([0x22; 32]);

const BEN: Id = Id([0x44; 32]);

/// The text of a deal between Ann and Ben.
const DEAL_TEXT: &[u8; 276] =
    b"deal pair\nhouse 0000000000000000000000000000000000000000000000000000000000000000\nparty ann 2222222222222222222222222222222222222222222222222222222222222222\nparty ben 4444444444444444444444444444444444444444444444444444444444444444\nstep ann ben bank aa 1\nstep ben ann bank b 1\n";

/// The digest of that text.
const DEAL: Id = Id([
    0xfe, 0xfc, 0xa0, 0x25, 0x6e, 0x77, 0x36, 0xe3, 0x59, 0xad, 0x40, 0xcc, 0x25, 0x1e, 0x53, 0xdd,
    0x7a, 0xf8, 0x9f, 0x63, 0x9f, 0xa2, 0x60, 0x9f, 0xf1, 0x2c, 0x4f, 0x44, 0x92, 0x16, 0xda, 0x0e,
]);

/// The digest of the opening's text, where Ann begins with 5 of b.
const IDENTITY: Id = Id([
    0x18, 0x28, 0x04, 0xad, 0x41, 0xb4, 0x59, 0x38, 0x5c, 0xfc, 0x99, 0x23, 0xfb, 0xdd, 0x3d, 0xaf,
    0xcb, 0xd3, 0x66, 0x5d, 0x76, 0x3a, 0x77, 0x73, 0x3e, 0x14, 0xe3, 0xab, 0xbd, 0x61, 0x80, 0x8a,
]);

/// The id of the house's first validators.
const HOUSE: Id = Id([
    0xb4, 0x2d, 0xd7, 0x71, 0x14, 0xdb, 0x1a, 0xe2, 0xeb, 0xeb, 0xb7, 0x85, 0xbc, 0x4d, 0xc5, 0xd6,
    0x5e, 0x27, 0xad, 0xd4, 0x7e, 0x07, 0x3c, 0xf7, 0xe3, 0x57, 0x1d, 0xea, 0xc5, 0xf7, 0xef, 0xd6,
]);

fn push_row(rows: &mut Vec<OpenRow>, asset: &[u8], amount: u64) -> Result<(), Fail> {
    rows.push(OpenRow {
        asset: Name::from_bytes(asset)?,
        account: ANN,
        amount,
    })?;
    Ok(())
}

/// Ann begins with so much of b, and with 6 of aa.
fn opening(alloc: Global, amount: u64) -> Result<Opening, Fail> {
    let mut set = Vec::from_slice(alloc, b"CCDSET01")?;
    set.extend_from_slice(&[0; 6])?;
    set.extend_from_slice(&[7; 32])?;
    let mut rows = Vec::new(alloc);
    push_row(&mut rows, b"b", amount)?;
    push_row(&mut rows, b"aa", 6)?;
    Ok(Opening {
        name: Name::from_bytes(b"bank")?,
        genesis: read_set(&set)?,
        rows: List::from_vec(rows),
    })
}

/// Each row as its asset and its amount, with a space behind each.
fn rows_told(alloc: Global, rows: &[HeldRow]) -> Result<String, Fail> {
    let mut told = String::new(alloc);
    for row in rows {
        let (asset, amount) = (row.asset, row.amount);
        told.push_str(&format!(in alloc; "{asset} {amount} ")?)?;
    }
    Ok(told)
}

/// What the account can spend.
fn account_told(
    alloc: Global,
    ledger: &mut Ledger<MemKeeper>,
    account: &Id,
) -> Result<String, Fail> {
    match ledger.account(account) {
        Ok(rows) => rows_told(alloc, rows.as_slice()),
        Err(fault) => Ok(format!(in alloc; "{fault}")?),
    }
}

/// What the ledger settled the deal by.
fn settlement_told(alloc: Global, ledger: &mut Ledger<MemKeeper>) -> Result<String, Fail> {
    match ledger.settlement(&DEAL) {
        Ok(Some(outcome)) => Ok(format!(in alloc; "{outcome}")?),
        Ok(None) => Ok(String::from_str(alloc, "open")?),
        Err(fault) => Ok(format!(in alloc; "{fault}")?),
    }
}

/// The statement's numbers and rows.
fn told(alloc: Global, statement: &Statement) -> Result<String, Fail> {
    let (at, moves) = (statement.at, statement.moves);
    let rows = rows_told(alloc, statement.rows.as_slice())?;
    Ok(format!(in alloc; "at {at} moves {moves} rows {rows}")?)
}

/// What the ledger states of the party in the deal.
fn statement_told(
    alloc: Global,
    ledger: &mut Ledger<MemKeeper>,
    party: &Id,
) -> Result<String, Fail> {
    match ledger.statement(&DEAL, party) {
        Ok(statement) => told(alloc, &statement),
        Err(fault) => Ok(format!(in alloc; "{fault}")?),
    }
}

/// What a ledger of that opening over the keeper tells of Ann and Ben, or why it isn't opened; and
/// the keeper.
fn opened(alloc: Global, keeper: MemKeeper, amount: u64) -> Result<(MemKeeper, String), Fail> {
    match Ledger::open(alloc, keeper, &opening(alloc, amount)?) {
        Ok(ledger) => {
            let mut ledger = ledger;
            let ann = account_told(alloc, &mut ledger, &ANN)?;
            let ben = account_told(alloc, &mut ledger, &BEN)?;
            Ok((ledger.close(), format!(in alloc; "ann {ann}ben {ben}")?))
        }
        Err(refused) => {
            let fault = format!(in alloc; "{}", refused.fault)?;
            Ok((refused.keeper, fault))
        }
    }
}

/// What is told where Ann has what she began with.
const BEGUN: &str = "ann aa 6 b 5 ben ";

#[test]
fn a_ledger_is_opened_again(rt: HostRuntime) -> Result<(), Fail> {
    let alloc = rt.alloc();
    let (keeper, told) = opened(alloc, MemKeeper::new(alloc), 0)?;
    assert!(rt; told.as_str() == "1 BadOpening 0");
    let (keeper, told) = opened(alloc, keeper, 5)?;
    assert!(rt; told.as_str() == BEGUN);
    let (keeper, told) = opened(alloc, keeper, 5)?;
    assert!(rt; told.as_str() == BEGUN);
    let (_, told) = opened(alloc, keeper, 4)?;
    let kept = IDENTITY;
    assert!(rt; told == format!(in alloc; "2 OtherOpening {kept}")?);
    Ok(())
}

/// A keeper that is told so fails the opening, and is opened when it runs again.
fn fails_once(alloc: Global, what: Arm) -> Result<bool, Fail> {
    let mut keeper = MemKeeper::new(alloc);
    keeper.arm(what);
    let (keeper, refused) = opened(alloc, keeper, 5)?;
    let mut keeper = keeper;
    keeper.restart();
    let (_, begun) = opened(alloc, keeper, 5)?;
    Ok(refused.as_str() == "3 Store 1 Keeper" && begun.as_str() == BEGUN)
}

#[test]
fn each_keeper_call_fails(rt: HostRuntime) -> Result<(), Fail> {
    for what in [Arm::FailNext, Arm::StopBefore, Arm::StopAfter] {
        assert!(rt; fails_once(rt.alloc(), what)?);
    }
    Ok(())
}

/// Ann has made 3 transfers in the deal, and owns 2 of b if it commits, and 1 of aa if it aborts.
fn put_deal(alloc: Global, keeper: &mut MemKeeper) -> Result<(), Fail> {
    let mut batch = Batch::new(alloc);
    let registration = Registration {
        registrant: ANN,
        settled: Some(Outcome::Commit),
        text: List::from_vec(Vec::from_slice(alloc, DEAL_TEXT)?),
    };
    put_registration(alloc, &mut batch, &DEAL, &registration)?;
    put_moves(alloc, &mut batch, &DEAL, &ANN, 3)?;
    let b = Hold {
        commit: 2,
        abort: 0,
    };
    put_hold(alloc, &mut batch, &DEAL, &ANN, &Name::from_bytes(b"b")?, &b)?;
    let aa = Hold {
        commit: 0,
        abort: 1,
    };
    put_hold(
        alloc,
        &mut batch,
        &DEAL,
        &ANN,
        &Name::from_bytes(b"aa")?,
        &aa,
    )?;
    keeper.commit(&batch)?;
    Ok(())
}

/// A ledger with a deal that is settled.
fn settled(alloc: Global) -> Result<Ledger<MemKeeper>, Fail> {
    let (keeper, _) = opened(alloc, MemKeeper::new(alloc), 5)?;
    let mut keeper = keeper;
    put_deal(alloc, &mut keeper)?;
    match Ledger::open(alloc, keeper, &opening(alloc, 5)?) {
        Ok(ledger) => Ok(ledger),
        Err(refused) => Err(Fail::from(refused.fault)),
    }
}

#[test]
fn a_party_is_told_what_it_owns(rt: HostRuntime) -> Result<(), Fail> {
    let alloc = rt.alloc();
    let mut ledger = settled(alloc)?;
    let told = statement_told(alloc, &mut ledger, &ANN)?;
    assert!(rt; told.as_str() == "at 0 moves 3 rows b 2 ");
    let stranger = HOUSE;
    let outsider = format!(in alloc; "2 NotAParty {stranger}")?;
    assert!(rt; statement_told(alloc, &mut ledger, &HOUSE)? == outsider);
    assert!(rt; settlement_told(alloc, &mut ledger)?.as_str() == "commit");
    Ok(())
}

#[test]
fn a_statement_names_what_it_is_of(rt: HostRuntime) -> Result<(), Fail> {
    let told = settled(rt.alloc())?.statement(&DEAL, &ANN)?;
    assert!(rt; told.house == HOUSE && told.deal == DEAL && told.party == ANN);
    assert!(rt; told.settled == Some(Outcome::Commit));
    Ok(())
}

#[test]
fn a_deal_that_is_not_registered_is_unknown(rt: HostRuntime) -> Result<(), Fail> {
    let alloc = rt.alloc();
    let keeper = MemKeeper::new(alloc);
    let Ok(ledger) = Ledger::open(alloc, keeper, &opening(alloc, 5)?) else {
        return Err(Fail::from("refused"));
    };
    let mut ledger = ledger;
    assert!(rt; settlement_told(alloc, &mut ledger)?.as_str() == "1 UnknownDeal");
    let told = statement_told(alloc, &mut ledger, &ANN)?;
    assert!(rt; told.as_str() == "1 UnknownDeal");
    Ok(())
}
