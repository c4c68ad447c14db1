//! A ledger whose rows are spelled here.

use dh_base::{Id, Name};
use holder_names::Directory;
use house_tables::ledger_tables;
use keeper_core::{Arm, Batch, Keeper, MemKeeper};
use std::alloc::Global;
use std::test::Fail;

const ANN: [u8; 32] = [0x11; 32];

const BEN: [u8; 32] = [0x22; 32];

const UNNAMED: [u8; 32] = [0xcc; 32];

const D: [u8; 32] = [0xdd; 32];

const E: [u8; 32] = [0xee; 32];

const BOND: &[u8] = b"\x04bond";

const COIN: &[u8] = b"\x04coin";

const TOLD: &str = "\
ledger coins
free bond ann 7
free coin ann 5
free coin ben 256
deal cccccccccccccccccccccccccccccccccccccccccccccccccccccccccccccccc abort
paid cccccccccccccccccccccccccccccccccccccccccccccccccccccccccccccccc coin ben 8
deal d open
hold d coin ann 1 2
hold d coin ben 3 0
deal e commit
paid e coin ann 4
";

/// Puts a row, of which the parts of the key and of the value are given.
fn put(
    alloc: Global,
    batch: &mut Batch,
    tab: u8,
    key: &[&[u8]],
    val: &[&[u8]],
) -> Result<(), Fail> {
    let mut keyed = Vec::new(alloc);
    for part in key {
        keyed.extend_from_slice(part)?;
    }
    let mut valued = Vec::new(alloc);
    for part in val {
        valued.extend_from_slice(part)?;
    }
    batch.put(tab, &keyed, &valued)?;
    Ok(())
}

/// What each account can spend.
fn put_free(alloc: Global, batch: &mut Batch) -> Result<(), Fail> {
    put(alloc, batch, 2, &[&ANN, COIN], &[&5u64.to_be_bytes()])?;
    put(alloc, batch, 2, &[&BEN, COIN], &[&256u64.to_be_bytes()])?;
    put(alloc, batch, 2, &[&ANN, BOND], &[&7u64.to_be_bytes()])
}

/// A deal that is open, one that has committed, and one that has aborted.
fn put_deals(alloc: Global, batch: &mut Batch) -> Result<(), Fail> {
    put(alloc, batch, 3, &[&D], &[&ANN, &[0], b"text"])?;
    put(alloc, batch, 3, &[&E], &[&ANN, &[1], b"text"])?;
    put(alloc, batch, 3, &[&UNNAMED], &[&ANN, &[2], b"text"])
}

/// What the account owns of coins in the deal, by either outcome.
fn put_hold(
    alloc: Global,
    batch: &mut Batch,
    deal: &[u8; 32],
    account: &[u8; 32],
    commit: u64,
    abort: u64,
) -> Result<(), Fail> {
    let amounts: [&[u8]; 2] = [&commit.to_be_bytes(), &abort.to_be_bytes()];
    put(alloc, batch, 4, &[deal, account, COIN], &amounts)
}

/// What the parties own in the deals.
fn put_holds(alloc: Global, batch: &mut Batch) -> Result<(), Fail> {
    put_hold(alloc, batch, &D, &BEN, 3, 0)?;
    put_hold(alloc, batch, &D, &ANN, 1, 2)?;
    put_hold(alloc, batch, &E, &ANN, 4, 6)?;
    put_hold(alloc, batch, &E, &BEN, 0, 5)?;
    put_hold(alloc, batch, &UNNAMED, &BEN, 9, 8)
}

/// A keeper of all these rows, which stops behind its commit if it is told to.
fn filled(alloc: Global, stops: bool) -> Result<MemKeeper, Fail> {
    let mut batch = Batch::new(alloc);
    put_free(alloc, &mut batch)?;
    put_deals(alloc, &mut batch)?;
    put_holds(alloc, &mut batch)?;
    let mut keeper = MemKeeper::new(alloc);
    if stops {
        keeper.arm(Arm::StopAfter);
    }
    let _done = keeper.commit(&batch).is_ok();
    Ok(keeper)
}

/// What is told of the ledger.
fn told(alloc: Global, stops: bool) -> Result<String, Fail> {
    let mut directory = Directory::new(alloc);
    directory.add(&Id(ANN), &Name::from_bytes(b"ann")?)?;
    directory.add(&Id(BEN), &Name::from_bytes(b"ben")?)?;
    directory.add(&Id(D), &Name::from_bytes(b"d")?)?;
    directory.add(&Id(E), &Name::from_bytes(b"e")?)?;
    let name = Name::from_bytes(b"coins")?;
    let line = ledger_tables(alloc, &directory, &name, filled(alloc, stops)?)?;
    let text = line.as_str();
    Ok(format!(in alloc; "{text}")?)
}

#[test]
fn rows_are_told_in_the_order_of_their_text(rt: HostRuntime) -> Result<(), Fail> {
    assert!(rt; told(rt.alloc(), false)?.as_str() == TOLD);
    Ok(())
}

#[test]
fn a_stopped_ledger_tells_no_rows(rt: HostRuntime) -> Result<(), Fail> {
    assert!(rt; told(rt.alloc(), true)?.as_str() == "ledger coins stopped\n");
    Ok(())
}
