//! What batches leave of the map.

use super::*;

/// A call of a keeper.
#[derive(Drop)]
enum Call<'a> {
    /// What stands at the key of the table.
    Get(u8, &'a [u8]),
    /// The rows of the table.
    Scan(u8),
    Commit(Batch),
}

/// What the keeper answers to each call, a line each.
fn answers<K: Keeper>(alloc: Global, keeper: &mut K, calls: &[Call<'_>]) -> Result<String, Fail> {
    let mut told = String::new(alloc);
    for call in calls {
        let answer = match call {
            Call::Get(tab, key) => value(alloc, keeper, *tab, key)?,
            Call::Scan(tab) => rows(alloc, keeper, *tab)?,
            Call::Commit(batch) => committed(alloc, keeper, batch)?,
        };
        told.push_str(&answer)?;
    }
    Ok(told)
}

/// Puts two values at one key of table 2 and deletes another key, in one batch.
fn database_batch(alloc: Global) -> Result<Batch, KeepFault> {
    let mut batch = Batch::new(alloc);
    batch.put(2, b"k", b"a")?;
    batch.put(2, b"k", b"b")?;
    batch.del(2, b"j")?;
    Ok(batch)
}

/// Whether that batch leaves one row, whose value is the later of the two, in a keeper to which a
/// row at the key that it deletes was put.
fn database_batch_holds<K: Keeper>(alloc: Global, keeper: &mut K) -> Result<bool, Fail> {
    let calls = [
        Call::Commit(one_put(alloc, b"j", b"1")?),
        Call::Get(2, b"j"),
        Call::Commit(database_batch(alloc)?),
        Call::Get(2, b"j"),
        Call::Scan(2),
    ];
    Ok(answers(alloc, keeper, &calls)?.as_str() == "kept\n1\nkept\nnone\nk=b \n")
}

#[test]
fn database_batch_in_memory(rt: HostRuntime) -> Result<(), Fail> {
    let mut keeper = SqlKeeper::in_memory(rt.alloc(), &mut 0)?;
    assert!(rt; database_batch_holds(rt.alloc(), &mut keeper)?);
    Ok(())
}

#[test]
fn database_batch_over_an_adopted_connection(rt: HostRuntime) -> Result<(), Fail> {
    let conn = made(rt.alloc(), "")?;
    let mut keeper = SqlKeeper::adopt(rt.alloc(), conn, &mut 0)?;
    assert!(rt; database_batch_holds(rt.alloc(), &mut keeper)?);
    Ok(())
}

/// A batch over two tables, of which one has an empty key, and whose keys are not put in order.
fn far_and_near(alloc: Global) -> Result<Batch, KeepFault> {
    let mut batch = Batch::new(alloc);
    batch.put(2, b"b", b"two")?;
    batch.put(255, b"a", b"far")?;
    batch.put(2, b"ab", b"three")?;
    batch.put(2, b"", b"empty")?;
    batch.put(2, b"a", b"")?;
    Ok(batch)
}

/// What a keeper answers behind that batch.
fn far_and_near_told<K: Keeper>(alloc: Global, keeper: &mut K) -> Result<String, Fail> {
    let calls = [
        Call::Commit(far_and_near(alloc)?),
        Call::Scan(2),
        Call::Get(255, b"a"),
        Call::Scan(0),
    ];
    answers(alloc, keeper, &calls)
}

#[test]
fn a_scan_lists_one_table_in_ascending_order(rt: HostRuntime) -> Result<(), Fail> {
    let mut keeper = SqlKeeper::in_memory(rt.alloc(), &mut 3)?;
    let told = far_and_near_told(rt.alloc(), &mut keeper)?;
    assert!(rt; told.as_str() == "kept\n=empty a= ab=three b=two \nfar\n\n");
    assert!(rt; keeper.looked() == 7 && keeper.faults() == 3);
    Ok(())
}
