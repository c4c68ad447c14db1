//! The texts of a small house. Its accounts and digests were computed outside, by a program of its
//! own.

use dh_base::{Id, Name};
use house_grammar::reading::house_line;
use house_grammar::{Declaration, HouseLine};
use house_texts::Setting;
use house_texts::openings::{ledger_names, opening_of};
use std::alloc::Global;
use std::test::Fail;

const HOUSE: &str = "party alice honest 2
party bob deviant 4
seat s0 honest 1
set one 0 0 s0
ledger tickets
ledger coins
open coins coin bob 5
open tickets ticket alice 1
open coins bond bob 7
deal d alice bob
deal e bob alice
step e bob alice coins coin 1
step d bob alice coins coin 3
step d alice bob tickets ticket 1";

const DEAL: &str = "\
38bc8d0eaf743dcc9f75b0e26ed0701f4a52a5165673a3814aa2125e58bf5311
deal d
house 45acdb660e9125a4a996ad46a5c89ff05d46b67b64177601ae459955fc9e2e2f
party alice 510da5e145a8ddce8c5a2afcdfdff1f575789fabe533b9487980bbc0ed89fa24
party bob 4cbb72c25061ae32bdf8ab22b7f893ed934acd25a9747a7f5fcd9830e384a3fc
step bob alice coins coin 3
step alice bob tickets ticket 1
";

const OPENED: &str = "\
tickets ticket alice 1
coins coin bob 5
coins bond bob 7
";

/// What the lines declare.
fn declared(alloc: Global) -> Result<Vec<Declaration>, Fail> {
    let mut declarations = Vec::new(alloc);
    for line in HOUSE.lines() {
        if let Some(HouseLine::Declare(declaration)) = house_line(alloc, line.as_bytes())? {
            declarations.push(declaration)?;
        }
    }
    Ok(declarations)
}

/// The id and the text of the deal.
fn deal_told(alloc: Global, name: &[u8]) -> Result<String, Fail> {
    let setting = Setting::of(alloc, &declared(alloc)?)?;
    let deal = setting.deal(&Name::from_bytes(name)?).ok_or("no deal")?;
    let id = deal.id;
    let text = String::from_utf8(Vec::from_slice(alloc, deal.text.as_slice())?)?;
    Ok(format!(in alloc; "{id}\n{text}")?)
}

/// With which rows the ledgers open.
fn opened(alloc: Global) -> Result<String, Fail> {
    let declarations = declared(alloc)?;
    let setting = Setting::of(alloc, &declarations)?;
    let directory = setting.directory(alloc)?;
    let mut told = String::new(alloc);
    for name in ledger_names(alloc, &declarations)?.iter() {
        let opening = opening_of(
            alloc,
            &declarations,
            setting.holders(),
            setting.genesis(),
            name,
        )?;
        for row in opening.rows.as_slice() {
            let ledger = opening.name;
            let asset = row.asset;
            let account = directory.label(&row.account);
            let amount = row.amount;
            told.push_str(&format!(in alloc; "{ledger} {asset} {account} {amount}\n")?)?;
        }
    }
    Ok(told)
}

/// By what the house, a deal and nothing are printed.
fn printed(alloc: Global) -> Result<String, Fail> {
    let setting = Setting::of(alloc, &declared(alloc)?)?;
    let directory = setting.directory(alloc)?;
    let house = *setting.house();
    let deal = setting.deal(&Name::from_bytes(b"d")?).ok_or("no deal")?;
    let called = directory.label(&deal.id);
    let unnamed = directory.label(&Id([0x11; 32]));
    Ok(format!(in alloc; "{house}\n{called}\n{unnamed}\n")?)
}

#[test]
fn a_deal_has_its_own_steps_and_the_digest_of_its_text(rt: HostRuntime) -> Result<(), Fail> {
    assert!(rt; deal_told(rt.alloc(), b"d")?.as_str() == DEAL);
    Ok(())
}

#[test]
fn a_ledger_opens_with_its_own_rows(rt: HostRuntime) -> Result<(), Fail> {
    assert!(rt; opened(rt.alloc())?.as_str() == OPENED);
    Ok(())
}

#[test]
fn the_house_has_the_id_of_its_first_set(rt: HostRuntime) -> Result<(), Fail> {
    let expected = "\
45acdb660e9125a4a996ad46a5c89ff05d46b67b64177601ae459955fc9e2e2f
d
1111111111111111111111111111111111111111111111111111111111111111
";
    assert!(rt; printed(rt.alloc())?.as_str() == expected);
    Ok(())
}
