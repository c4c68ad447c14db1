//! A house of a few holders. Their accounts were computed outside, by a program of its own.

use dh_base::{Id, Name};
use holder_names::Directory;
use house_grammar::reading::house_line;
use house_grammar::{Conduct, Declaration, HouseLine};
use house_holders::*;
use std::alloc::Global;
use std::test::Fail;

/// Alice keeps to her program; bob and the seat don't. No ring has 65 keys, and no tree is one.
const HOUSE: &str = "party alice honest 2
party bob deviant 1
party carol honest 65
party dave honest 0
party erin honest t5
ledger coins
seat s0 deviant 1";

const TOLD: &str = "\
alice 2 compliant 510da5e145a8ddce8c5a2afcdfdff1f575789fabe533b9487980bbc0ed89fa24
bob 1 deviates 40473c230571ca61ffaa3ce455028c0fc7baaa3c327fc8cfc05dce42918298cc
s0 1 deviates 7254af64c2a982b6602ce1e54314dae1dec321bf504c438e5ec05d2feeceadc5
";

/// What the lines declare.
fn declared(alloc: Global, lines: &str) -> Result<Vec<Declaration>, Fail> {
    let mut declarations = Vec::new(alloc);
    for line in lines.lines() {
        if let Some(HouseLine::Declare(declaration)) = house_line(alloc, line.as_bytes())? {
            declarations.push(declaration)?;
        }
    }
    Ok(declarations)
}

fn house(alloc: Global) -> Result<Holders, Fail> {
    Ok(Holders::of(alloc, &declared(alloc, HOUSE)?)?)
}

fn conduct_told(conduct: Conduct) -> &'static str {
    match conduct {
        Conduct::Honest => "compliant",
        Conduct::Deviant => "deviates",
    }
}

/// A line for each holder.
fn told(alloc: Global, holders: &Holders) -> Result<String, Fail> {
    let mut told = String::new(alloc);
    for holder in holders.as_slice() {
        let name = *holder.name();
        let size = holder.size();
        let conduct = conduct_told(holder.conduct());
        let account = *holder.account();
        told.push_str(&format!(in alloc; "{name} {size} {conduct} {account}\n")?)?;
    }
    Ok(told)
}

#[test]
fn holders_stand_in_the_order_of_their_lines(rt: HostRuntime) -> Result<(), Fail> {
    let alloc = rt.alloc();
    let holders = house(alloc)?;
    assert!(rt; told(alloc, &holders)?.as_str() == TOLD);
    Ok(())
}

#[test]
fn an_account_is_that_of_its_name(rt: HostRuntime) -> Result<(), Fail> {
    let alloc = rt.alloc();
    let holders = house(alloc)?;
    let bob = holders.account_of(&Name::from_bytes(b"bob")?);
    let mut directory = Directory::new(alloc);
    holders.name_in(&mut directory)?;
    let called = directory.label(&bob);
    assert!(rt; format!(in alloc; "{called}")?.as_str() == "bob");
    assert!(rt; holders.account_of(&Name::from_bytes(b"carol")?) == Id([0; 32]));
    Ok(())
}

/// Whose signature is forged where the holder of the name says hello under that key.
fn forged(
    alloc: Global,
    holders: &Holders,
    name: &[u8],
    q: u32,
    says: u32,
) -> Result<String, Fail> {
    let holder = holders.find(&Name::from_bytes(name)?).ok_or("no holder")?;
    if u32::from(holder.size()) <= q {
        return Err(Fail::from("no key"));
    }
    let mut env = holder.sign(alloc, q, b"hello")?;
    env.q = says;
    let compliant = compliant_of(alloc, holders.as_slice())?;
    match forgery_of(&compliant, &env) {
        None => Ok(format!(in alloc; "none")?),
        Some(forgery) => {
            let name = forgery.name;
            let q = forgery.q;
            Ok(format!(in alloc; "{name} {q}")?)
        }
    }
}

#[test]
fn a_text_that_a_compliant_holder_never_signed_is_forged(rt: HostRuntime) -> Result<(), Fail> {
    let alloc = rt.alloc();
    let holders = house(alloc)?;
    assert!(rt; forged(alloc, &holders, b"alice", 1, 1)?.as_str() == "alice 1");
    assert!(rt; forged(alloc, &holders, b"alice", 1, 0)?.as_str() == "none");
    assert!(rt; forged(alloc, &holders, b"bob", 0, 0)?.as_str() == "none");
    Ok(())
}
