//! Small maps, worked out by hand. A test makes a course of calls and compares what they answer, a
//! word each.

use dh_base::{Id, List, NoMemory, Refusal};
use keeper_core::*;
use std::alloc::Global;
use std::test::Fail;

/// A keeper with "one" at "a", "two" at "b" and "three" at "ab" of table 2, and "far" at "a" of
/// table 7.
pub fn filled(alloc: Global) -> Result<MemKeeper, KeepFault> {
    let mut batch = Batch::new(alloc);
    batch.put(2, b"b", b"two")?;
    batch.put(7, b"a", b"far")?;
    batch.put(2, b"ab", b"three")?;
    batch.put(2, b"a", b"one")?;
    let mut keeper = MemKeeper::new(alloc);
    keeper.commit(&batch)?;
    Ok(keeper)
}

/// The batch that puts "new" at "a" of table 2.
pub fn one_put(alloc: Global) -> Result<Batch, NoMemory> {
    let mut batch = Batch::new(alloc);
    batch.put(2, b"a", b"new")?;
    Ok(batch)
}

/// Whether these are the bytes that a call gave.
pub fn are(given: &Option<List<u8>>, val: &[u8]) -> bool {
    match given {
        Some(bytes) => bytes.as_slice() == val,
        None => false,
    }
}

/// Whether a key of table 2 has these bytes.
fn has(keeper: &MemKeeper, key: &[u8], val: &[u8]) -> bool {
    match keeper.peek(2, key) {
        Some(bytes) => bytes == val,
        None => false,
    }
}

/// A call of a keeper.
#[derive(Clone, Copy)]
enum Call<'a> {
    /// What stands at the key of the table.
    Get(u8, &'a [u8]),
    /// The rows of the table.
    Scan(u8),
    Commit(&'a Batch),
    Arm(Arm),
    Restart,
}

/// The bytes as a text, with a space behind it.
fn word(alloc: Global, bytes: &[u8]) -> Result<String, Fail> {
    match std::str::from_utf8(bytes) {
        Ok(text) => Ok(format!(in alloc; "{text} ")?),
        Err(_) => Err(Fail::from("no text")),
    }
}

/// The fault as a word.
fn fault_word(alloc: Global, fault: KeepFault) -> Result<String, Fail> {
    Ok(format!(in alloc; "{fault} ")?)
}

fn value(alloc: Global, keeper: &mut MemKeeper, tab: u8, key: &[u8]) -> Result<String, Fail> {
    match keeper.get(tab, key) {
        Ok(Some(bytes)) => word(alloc, bytes.as_slice()),
        Ok(None) => word(alloc, b"none"),
        Err(fault) => fault_word(alloc, fault),
    }
}

/// Each row of the table as its key and its value.
fn rows(alloc: Global, keeper: &mut MemKeeper, tab: u8) -> Result<String, Fail> {
    let rows = match keeper.scan(tab) {
        Ok(rows) => rows,
        Err(fault) => return fault_word(alloc, fault),
    };
    let mut told = String::new(alloc);
    for row in rows.as_slice() {
        told.push_str(&word(alloc, row.key.as_slice())?)?;
        told.push_str(&word(alloc, row.val.as_slice())?)?;
    }
    Ok(told)
}

fn committed(alloc: Global, keeper: &mut MemKeeper, batch: &Batch) -> Result<String, Fail> {
    match keeper.commit(batch) {
        Ok(()) => word(alloc, b"kept"),
        Err(fault) => fault_word(alloc, fault),
    }
}

fn answer(alloc: Global, keeper: &mut MemKeeper, call: &Call<'_>) -> Result<String, Fail> {
    match call {
        Call::Get(tab, key) => value(alloc, keeper, *tab, key),
        Call::Scan(tab) => rows(alloc, keeper, *tab),
        Call::Commit(batch) => committed(alloc, keeper, batch),
        Call::Arm(arm) => {
            keeper.arm(*arm);
            Ok(String::new(alloc))
        }
        Call::Restart => {
            keeper.restart();
            Ok(String::new(alloc))
        }
    }
}

/// What the keeper answers to each call.
fn answers(alloc: Global, keeper: &mut MemKeeper, calls: &[Call<'_>]) -> Result<String, Fail> {
    let mut told = String::new(alloc);
    for call in calls {
        told.push_str(&answer(alloc, keeper, call)?)?;
    }
    Ok(told)
}

/// How many faults the keeper counts, and whether it has stopped.
fn state(keeper: &MemKeeper) -> (u64, bool) {
    (keeper.faults(), keeper.has_stopped())
}

#[test]
fn a_keeper_answers_by_its_map(rt: HostRuntime) -> Result<(), Fail> {
    let mut keeper = filled(rt.alloc())?;
    let calls = [
        Call::Get(2, b"a"),
        Call::Get(7, b"a"),
        Call::Get(3, b"a"),
        Call::Scan(2),
        Call::Scan(3),
    ];
    let told = answers(rt.alloc(), &mut keeper, &calls)?;
    assert!(rt; told.as_str() == "one far none a one ab three b two ");
    assert!(rt; has(&keeper, b"ab", b"three"));
    assert!(rt; keeper.peek(200, b"").is_none());
    Ok(())
}

/// Puts and deletes, later ones over earlier ones.
fn changes(alloc: Global) -> Result<Batch, Fail> {
    let mut batch = Batch::new(alloc);
    batch.put(2, b"k", b"first")?;
    batch.put(2, b"k", b"second")?;
    batch.put(2, b"gone", b"soon")?;
    batch.del(2, b"gone")?;
    batch.del(2, b"a")?;
    batch.put(2, b"a", b"again")?;
    batch.del(2, b"b")?;
    batch.del(9, b"never there")?;
    Ok(batch)
}

#[test]
fn a_later_change_wins(rt: HostRuntime) -> Result<(), Fail> {
    let alloc = rt.alloc();
    let batch = changes(alloc)?;
    assert!(rt; batch.changes().len() == 8);
    let calls = [Call::Commit(&batch), Call::Scan(2), Call::Scan(7)];
    let told = answers(alloc, &mut filled(alloc)?, &calls)?;
    assert!(rt; told.as_str() == "kept a again ab three k second a far ");
    Ok(())
}

#[test]
fn each_call_fails_where_it_is_told_to(rt: HostRuntime) -> Result<(), Fail> {
    let alloc = rt.alloc();
    let mut keeper = filled(alloc)?;
    let batch = one_put(alloc)?;
    let fail = Call::Arm(Arm::FailNext);
    let failing = [
        fail,
        Call::Get(2, b"a"),
        fail,
        Call::Scan(2),
        fail,
        Call::Commit(&batch),
    ];
    assert!(rt; answers(alloc, &mut keeper, &failing)?.as_str() == "failed failed failed ");
    assert!(rt; state(&keeper) == (3, false));
    let behind = [Call::Get(2, b"a"), Call::Commit(&batch), Call::Get(2, b"a")];
    assert!(rt; answers(alloc, &mut keeper, &behind)?.as_str() == "one kept new ");
    assert!(rt; state(&keeper) == (3, false));
    Ok(())
}

#[test]
fn a_stop_before_a_commit_leaves_the_map_as_before(rt: HostRuntime) -> Result<(), Fail> {
    let alloc = rt.alloc();
    let mut keeper = filled(alloc)?;
    let batch = one_put(alloc)?;
    let stopping = [
        Call::Arm(Arm::StopBefore),
        Call::Get(2, b"a"),
        Call::Commit(&batch),
        Call::Get(2, b"a"),
        Call::Scan(2),
        Call::Commit(&batch),
    ];
    let told = answers(alloc, &mut keeper, &stopping)?;
    assert!(rt; told.as_str() == "one failed failed failed failed ");
    assert!(rt; has(&keeper, b"a", b"one"));
    assert!(rt; state(&keeper) == (4, true));
    let behind = [Call::Restart, Call::Commit(&batch), Call::Get(2, b"a")];
    assert!(rt; answers(alloc, &mut keeper, &behind)?.as_str() == "kept new ");
    Ok(())
}

#[test]
fn a_stop_after_a_commit_leaves_the_map_as_after(rt: HostRuntime) -> Result<(), Fail> {
    let alloc = rt.alloc();
    let mut keeper = filled(alloc)?;
    let batch = one_put(alloc)?;
    let stopping = [Call::Arm(Arm::StopAfter), Call::Commit(&batch)];
    assert!(rt; answers(alloc, &mut keeper, &stopping)?.as_str() == "failed ");
    assert!(rt; state(&keeper) == (1, true));
    let behind = [Call::Restart, Call::Get(2, b"a"), Call::Commit(&batch)];
    assert!(rt; answers(alloc, &mut keeper, &behind)?.as_str() == "new kept ");
    Ok(())
}

#[test]
fn a_later_arm_takes_the_place_of_an_earlier_one(rt: HostRuntime) -> Result<(), Fail> {
    let alloc = rt.alloc();
    let batch = one_put(alloc)?;
    let calls = [
        Call::Arm(Arm::FailNext),
        Call::Arm(Arm::StopBefore),
        Call::Get(2, b"a"),
        Call::Arm(Arm::StopAfter),
        Call::Commit(&batch),
        Call::Arm(Arm::StopBefore),
        Call::Restart,
        Call::Get(2, b"a"),
        Call::Commit(&batch),
    ];
    let told = answers(alloc, &mut filled(alloc)?, &calls)?;
    assert!(rt; told.as_str() == "one failed new kept ");
    Ok(())
}

/// A put into each of two tables.
fn two_puts(alloc: Global) -> Result<Batch, NoMemory> {
    let mut batch = one_put(alloc)?;
    batch.put(9, b"z", b"last")?;
    Ok(batch)
}

/// Where an allocation is refused, the tests are tried with it: a commit changes nothing then.
#[test]
fn a_commit_without_memory_changes_nothing(rt: HostRuntime) {
    let alloc = rt.alloc();
    let Ok(mut keeper) = filled(alloc) else {
        return;
    };
    let Ok(batch) = two_puts(alloc) else {
        return;
    };
    let done = keeper.commit(&batch).is_ok();
    let (first, last) = (has(&keeper, b"a", b"new"), keeper.peek(9, b"z").is_some());
    assert!(rt; first == done && last == done && state(&keeper) == (0, false));
}

/// The SHA-256 digest of no bytes.
const OF_NOTHING: Id = Id([
    0xe3, 0xb0, 0xc4, 0x42, 0x98, 0xfc, 0x1c, 0x14, 0x9a, 0xfb, 0xf4, 0xc8, 0x99, 0x6f, 0xb9, 0x24,
    0x27, 0xae, 0x41, 0xe4, 0x64, 0x9b, 0x93, 0x4c, 0xa4, 0x95, 0x99, 0x1b, 0x78, 0x52, 0xb8, 0x55,
]);

#[test]
fn a_bad_row_is_named(rt: HostRuntime) -> Result<(), Fail> {
    let fault = StoreFault::bad_row(8, b"");
    let key = OF_NOTHING;
    assert!(rt; fault == StoreFault::BadRow { tab: 8, key });
    let failed = StoreFault::from(KeepFault::Failed);
    let told = format!(in rt.alloc(); "{failed} {fault}")?;
    let wanted =
        "1 Keeper 2 BadRow 8 e3b0c44298fc1c149afbf4c8996fb92427ae41e4649b934ca495991b7852b855";
    assert!(rt; told.as_str() == wanted);
    Ok(())
}

fn store(alloc: Global, fails: &[u32]) -> Result<MemStore, NoMemory> {
    Ok(MemStore::new(alloc, List::from_vec(fails.to_vec(alloc)?)))
}

/// Whether "new" stands in the keeper that the store gives for the name. The keeper goes back.
fn keeps_new(store: &mut MemStore, name: &str) -> Result<bool, Fail> {
    let kept = store.keep(name)?;
    let found = has(&kept, b"a", b"new");
    store.back(name, kept);
    Ok(found)
}

/// A store that keeps "new" for the name.
fn with_new(alloc: Global, name: &str) -> Result<MemStore, Fail> {
    let mut store = store(alloc, &[])?;
    let mut kept = store.keep(name)?;
    kept.commit(&one_put(alloc)?)?;
    store.back(name, kept);
    Ok(store)
}

#[test]
fn a_store_gives_each_name_its_map(rt: HostRuntime) -> Result<(), Fail> {
    let mut store = with_new(rt.alloc(), "left")?;
    assert!(rt; keeps_new(&mut store, "left")? && !keeps_new(&mut store, "right")?);
    let left = store.keep("left")?;
    assert!(rt; !keeps_new(&mut store, "left")?);
    store.back("right", left);
    assert!(rt; keeps_new(&mut store, "right")? && store.faults() == 0);
    Ok(())
}

/// Whether the store gives a keeper for the name. The keeper goes back.
fn gives(store: &mut MemStore, name: &str) -> bool {
    match store.keep(name) {
        Ok(kept) => {
            store.back(name, kept);
            true
        }
        Err(_) => false,
    }
}

#[test]
fn each_call_of_a_store_fails_where_it_is_told_to(rt: HostRuntime) -> Result<(), Fail> {
    let mut store = store(rt.alloc(), &[0, 2])?;
    let (first, second) = (gives(&mut store, "a"), gives(&mut store, "a"));
    assert!(rt; !first && second && store.faults() == 1);
    let (third, fourth) = (gives(&mut store, "a"), gives(&mut store, "a"));
    assert!(rt; !third && fourth && store.faults() == 2);
    Ok(())
}

/// A store to which a keeper came back that stopped behind its commit, under that name.
fn with_stopped(alloc: Global, name: &str) -> Result<MemStore, Fail> {
    let mut store = store(alloc, &[])?;
    let mut kept = store.keep("a")?;
    kept.arm(Arm::StopAfter);
    let batch = one_put(alloc)?;
    let told = answers(
        alloc,
        &mut kept,
        &[Call::Commit(&batch), Call::Get(2, b"a")],
    )?;
    store.back(name, kept);
    if told.as_str() == "failed failed " {
        Ok(store)
    } else {
        Err(Fail::from("not stopped"))
    }
}

#[test]
fn a_keeper_that_comes_back_brings_its_faults_and_runs_again(rt: HostRuntime) -> Result<(), Fail> {
    let mut store = with_stopped(rt.alloc(), "a")?;
    assert!(rt; store.faults() == 2);
    let kept = store.keep("a")?;
    assert!(rt; state(&kept) == (0, false) && has(&kept, b"a", b"new"));
    Ok(())
}

#[test]
fn a_keeper_of_an_unknown_name_brings_its_faults_alone(rt: HostRuntime) -> Result<(), Fail> {
    let mut store = with_stopped(rt.alloc(), "never kept")?;
    assert!(rt; store.faults() == 2 && !keeps_new(&mut store, "never kept")?);
    Ok(())
}
