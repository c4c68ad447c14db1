//! What is read of the table: a cell's value, and a table's rows.

ghost use Rattle.std.specs.Prelude.{◌≡◌, map, Option, false, IsTrue, IfOk, OnOk};
ghost use Rattle.std.specs.FinMap as finite;
ghost use Rattle.sqlite.specs.Held.{state};
ghost use Rattle.sqlite.specs.State.{HasCleanDisk, IsUnchanged};
ghost use Rattle.keeper_core.specs.Tables.{rows_of};
ghost use Rattle.keeper_sql.specs.CellRows.{IsKept, tables_in, scan_row, shown_value};

use crate::statements::{run_get, run_scan};
use dh_base::List;
use sqlite::{Alter, Connection, Error, Row};
use std::alloc::Global;

/// The rows that show a cell's value.
fn value_rows<S: Alter>(conn: &mut Connection<S>, tab: u8, key: &[u8]) -> Result<Vec<Row>, Error>
    ensures shows { HasCleanDisk (state S.Store conn.new) → IsKept (state S.Store conn.old).now
        → IfOk result (λ rows. rows.items ≡ shown_value
        (finite.get (tables_in (state S.Store conn.old).now) (tab, key.now))) }
    ensures unchanged { HasCleanDisk (state S.Store conn.new) → IsKept (state S.Store conn.old).now
        → OnOk result (IsUnchanged (state S.Store conn.old) (state S.Store conn.new)) }
    ensures was_open { HasCleanDisk (state S.Store conn.new)
        → IsTrue (state S.Store conn.new).is_open → IsTrue (state S.Store conn.old).is_open }
    ensures stays { HasCleanDisk (state S.Store conn.new) → IsKept (state S.Store conn.old).now
        → (IsTrue (state S.Store conn.old).is_open
        → (state S.Store conn.old).now ≡ (state S.Store conn.old).committed)
        → IsTrue (state S.Store conn.new).is_open
        → (state S.Store conn.new).now ≡ (state S.Store conn.old).now }
    ensures idle { conn.old.in_transaction ≡ false → conn.new.in_transaction ≡ false }
{
    run_get(conn, tab, key)
}

/// The rows of a table, in ascending order of their keys, as the selection shows them.
fn table_rows<S: Alter>(conn: &mut Connection<S>, tab: u8) -> Result<Vec<Row>, Error>
    ensures shows { HasCleanDisk (state S.Store conn.new) → IsKept (state S.Store conn.old).now
        → IfOk result (λ rows. rows.items ≡ map scan_row
        (rows_of tab (tables_in (state S.Store conn.old).now))) }
    ensures unchanged { HasCleanDisk (state S.Store conn.new) → IsKept (state S.Store conn.old).now
        → OnOk result (IsUnchanged (state S.Store conn.old) (state S.Store conn.new)) }
    ensures was_open { HasCleanDisk (state S.Store conn.new)
        → IsTrue (state S.Store conn.new).is_open → IsTrue (state S.Store conn.old).is_open }
    ensures stays { HasCleanDisk (state S.Store conn.new) → IsKept (state S.Store conn.old).now
        → (IsTrue (state S.Store conn.old).is_open
        → (state S.Store conn.old).now ≡ (state S.Store conn.old).committed)
        → IsTrue (state S.Store conn.new).is_open
        → (state S.Store conn.new).now ≡ (state S.Store conn.old).now }
    ensures idle { conn.old.in_transaction ≡ false → conn.new.in_transaction ≡ false }
{
    run_scan(conn, tab)
}

/// The value that rows show.
fn first_value(rows: &[Row]) -> Result<Option<List<u8>>, Error>
    ensures { (o : Option _) → rows.now ≡ shown_value o → IfOk result (λ val. val ≡ o) }
{
    match rows.first() {
        Some(row) => {
            let val: Vec<u8> = row.get(0)?;
            Ok(Some(List::from_vec(val)))
        }
        None => Ok(None),
    }
}

/// The row of a keeper that a row of a scan shows.
fn listed_row(row: &Row) -> Result<keeper_core::Row, Error>
    ensures { (it : _) → row.now ≡ scan_row it → IfOk result (λ got. got ≡ it) }
{
    let key: Vec<u8> = row.get(0)?;
    let val: Vec<u8> = row.get(1)?;
    Ok(keeper_core::Row {
        key: List::from_vec(key),
        val: List::from_vec(val),
    })
}

/// The rows of a keeper that the rows of a scan show.
fn listed_rows(alloc: Global, rows: &[Row]) -> Result<List<keeper_core::Row>, Error>
    ensures { (all : _) → rows.now ≡ map scan_row all → IfOk result (λ got. got ≡ all) }
{
    let mut listed = Vec::new(alloc);
    for row in rows {
        listed.push(listed_row(row)?)?;
    }
    Ok(List::from_vec(listed))
}

/// The value of a cell, outside a transaction.
pub(crate) fn look<S: Alter>(
    conn: &mut Connection<S>,
    tab: u8,
    key: &[u8],
) -> Result<Option<List<u8>>, Error>
    requires { conn.old.in_transaction ≡ false }
    ensures found { IsTrue (state S.Store conn.new).is_open
        → (IsTrue (state S.Store conn.old).is_open → IsKept (state S.Store conn.old).now)
        → IfOk result (λ val. val ≡ finite.get (tables_in (state S.Store conn.old).now)
        (tab, key.now)) }
    ensures stays { IsTrue (state S.Store conn.new).is_open
        → (IsTrue (state S.Store conn.old).is_open → IsKept (state S.Store conn.old).now)
        → IsTrue (state S.Store conn.old).is_open
        × ((state S.Store conn.new).now ≡ (state S.Store conn.old).now) }
    ensures idle { conn.new.in_transaction ≡ false }
{
    let _settled = conn.is_autocommit();
    let rows = value_rows(conn, tab, key)?;
    first_value(rows.as_slice())
}

/// The rows of a table in ascending order of their keys, outside a transaction.
pub(crate) fn list<S: Alter>(
    conn: &mut Connection<S>,
    alloc: Global,
    tab: u8,
) -> Result<List<keeper_core::Row>, Error>
    requires { conn.old.in_transaction ≡ false }
    ensures lists { IsTrue (state S.Store conn.new).is_open
        → (IsTrue (state S.Store conn.old).is_open → IsKept (state S.Store conn.old).now)
        → IfOk result (λ rows. rows ≡ rows_of tab (tables_in (state S.Store conn.old).now)) }
    ensures stays { IsTrue (state S.Store conn.new).is_open
        → (IsTrue (state S.Store conn.old).is_open → IsKept (state S.Store conn.old).now)
        → IsTrue (state S.Store conn.old).is_open
        × ((state S.Store conn.new).now ≡ (state S.Store conn.old).now) }
    ensures idle { conn.new.in_transaction ≡ false }
{
    let _settled = conn.is_autocommit();
    let rows = table_rows(conn, tab)?;
    listed_rows(alloc, rows.as_slice())
}
