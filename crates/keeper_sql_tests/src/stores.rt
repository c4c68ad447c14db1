//! Small batches and databases, worked out by hand. A test makes a course of calls and compares
//! what they answer, a line each.

mod adopting;
mod batches;
mod files;

use keeper_core::{Batch, KeepFault, Keeper};
use keeper_sql::SqlKeeper;
use sqlite::{Connection, Error, MemStore};
use std::alloc::Global;
use std::test::Fail;

/// A database in memory on which the statements were run.
fn made(alloc: Global, sql: &str) -> Result<Connection<MemStore>, Error> {
    let mut conn = Connection::open_in_memory(alloc)?;
    conn.execute_batch(sql)?;
    Ok(conn)
}

/// The batch that puts these bytes at a key of table 2.
fn one_put(alloc: Global, key: &[u8], val: &[u8]) -> Result<Batch, KeepFault> {
    let mut batch = Batch::new(alloc);
    batch.put(2, key, val)?;
    Ok(batch)
}

/// The bytes as a text.
fn text(bytes: &[u8]) -> Result<&str, Fail> {
    match std::str::from_utf8(bytes) {
        Ok(text) => Ok(text),
        Err(_) => Err(Fail::from("no text")),
    }
}

/// A line for the value at the key.
fn value<K: Keeper>(alloc: Global, keeper: &mut K, tab: u8, key: &[u8]) -> Result<String, Fail> {
    match keeper.get(tab, key) {
        Ok(Some(bytes)) => Ok(format!(in alloc; "{}\n", text(bytes.as_slice())?)?),
        Ok(None) => Ok(String::from_str(alloc, "none\n")?),
        Err(fault) => Ok(format!(in alloc; "{fault}\n")?),
    }
}

/// A line of the table's rows, each as its key, a sign and its value, with a space behind it.
fn rows<K: Keeper>(alloc: Global, keeper: &mut K, tab: u8) -> Result<String, Fail> {
    let rows = match keeper.scan(tab) {
        Ok(rows) => rows,
        Err(fault) => return Ok(format!(in alloc; "{fault}\n")?),
    };
    let mut told = String::new(alloc);
    for row in rows.as_slice() {
        told.push_str(text(row.key.as_slice())?)?;
        told.push_str("=")?;
        told.push_str(text(row.val.as_slice())?)?;
        told.push_str(" ")?;
    }
    told.push_str("\n")?;
    Ok(told)
}

/// A line for the commit of the batch.
fn committed<K: Keeper>(alloc: Global, keeper: &mut K, batch: &Batch) -> Result<String, Fail> {
    match keeper.commit(batch) {
        Ok(()) => Ok(String::from_str(alloc, "kept\n")?),
        Err(fault) => Ok(format!(in alloc; "{fault}\n")?),
    }
}
