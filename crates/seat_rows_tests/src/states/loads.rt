//! Rows that are loaded, and those that lack their form.

use super::*;
use keeper_core::{Batch, Keeper, MemKeeper, StoreFault};
use key_ring::{KeySpec, Signer};

fn one_key() -> KeySpec {
    KeySpec {
        seed: [1; 32],
        ident: [1; 16],
        size: 1,
    }
}

/// What is loaded where these rows stand.
fn loaded(
    alloc: Global,
    place: &SeatPlace,
    rows: &[(u8, &[u8], &[u8])],
) -> Result<Result<SeatState, StoreFault>, Fail> {
    let mut keeper = MemKeeper::new(alloc);
    let mut batch = Batch::new(alloc);
    for row in rows {
        batch.put(row.0, row.1, row.2)?;
    }
    keeper.commit(&batch)?;
    let rows = read_rows(&mut keeper)?;
    let signer = Signer::load(alloc, &one_key(), &mut keeper)?;
    Ok(state_of(alloc, place, rows, signer))
}

/// The fault where these rows stand.
fn fault(
    alloc: Global,
    place: &SeatPlace,
    rows: &[(u8, &[u8], &[u8])],
) -> Result<Option<StoreFault>, Fail> {
    Ok(loaded(alloc, place, rows)?.err())
}

#[test]
fn a_seat_is_loaded(rt: HostRuntime) -> Result<(), Fail> {
    let alloc = rt.alloc();
    let place = place(&rt, alloc)?;
    let Ok(state) = loaded(alloc, &place, &[])? else {
        return Err(Fail::from("not loaded"));
    };
    assert!(rt; state.begun.is_none() && state.closing.is_none());
    assert!(rt; state.log.recs().is_empty() && !has_handed(&place, &state));
    let begun: &[u8] = b"b";
    let zero: &[u8] = &[0, 0, 0, 0];
    let Ok(state) = loaded(alloc, &place, &[(11, begun, zero)])? else {
        return Err(Fail::from("not loaded"));
    };
    assert!(rt; state.begun == Some(0));
    Ok(())
}

#[test]
fn rows_that_lack_their_form_are_named(rt: HostRuntime) -> Result<(), Fail> {
    let alloc = rt.alloc();
    let place = place(&rt, alloc)?;
    let begun: &[u8] = b"b";
    let closed: &[u8] = b"c";
    let zero: &[u8] = &[0, 0, 0, 0];
    let key: &[u8] = b"key";
    let named = digest(key);
    let under: &[u8] = &named.0;
    let early = Some(StoreFault::bad_row(9, zero));
    assert!(rt; fault(alloc, &place, &[(9, zero, key)])? == early);
    let no_record = fault(alloc, &place, &[(11, begun, zero), (9, zero, key)])?;
    assert!(rt; no_record == early);
    let no_length = fault(alloc, &place, &[(11, begun, key)])?;
    assert!(rt; no_length == Some(StoreFault::bad_row(11, begun)));
    let no_set = fault(alloc, &place, &[(11, closed, zero)])?;
    assert!(rt; no_set == Some(StoreFault::bad_row(11, closed)));
    let misnamed = fault(alloc, &place, &[(10, key, key)])?;
    assert!(rt; misnamed == Some(StoreFault::bad_row(10, key)));
    let unused = fault(alloc, &place, &[(10, under, key)])?;
    assert!(rt; unused == Some(StoreFault::bad_row(10, under)));
    let last = fault(alloc, &place, &[(8, zero, key)])?;
    assert!(rt; last == Some(StoreFault::bad_row(8, zero)));
    Ok(())
}
