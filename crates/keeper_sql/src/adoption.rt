//! The table of a database that is there already: whether it is the keeper's.

ghost use Rattle.std.specs.Prelude.{◌≡◌, [], ◌∷◌, filter, false, IsTrue, IfOk, OnOk};
ghost use Rattle.sqlite.specs.Held.{state};
ghost use Rattle.sqlite.specs.State.{HasCleanDisk, IsLive, IsUnchanged, Opens};
ghost use Rattle.sqlite_trees.specs.View.{IsShaped};
ghost use Rattle.keeper_sql.specs.Statements.{no_schema, the_schema, cell, cell_index, cell_column, is_stray};
ghost use Rattle.keeper_sql.specs.CellRows.{IsKept, tables_in};

use crate::statements::{create, run_strays};
use sqlite::{Alter, Connection, Error, ErrorCode, Row};
use sqlite_items::Items;
use sqlite_schema::code::Terms;
use sqlite_schema::schema::{Column, Index, Kind, Schema, Stamps, Table};
use sqlite_trees::store::{Shape, Store};
use sqlite_value::keys::Collation;
use sqlite_value::value::Value;
use std::alloc::{AllocError, Global};

/// A database that is not a keeper's.
const NOT_A_KEEPERS: Error = Error::SqliteFailure(ErrorCode::NotADatabase);

/// Whether the database has nothing in it.
#[tactic(auto, using(crate::proofs::SchemaIs::schema_bare))]
fn is_bare(schema: &Schema) -> bool
    ensures { IsTrue result → schema.now ≡ no_schema }
{
    schema.tables.is_empty() && schema.indexes.is_empty() && schema.views.is_empty()
}

/// Whether the column has that name, and takes values of that kind and no others.
#[tactic(auto, using(crate::proofs::SchemaIs::column_is))]
fn is_column(column: &Column, name: &[u8], kind: Kind) -> bool
    ensures { IsTrue result → column.now ≡ cell_column name.now kind }
{
    column.name.as_slice() == name
        && column.kind == kind
        && column.is_strict
        && column.not_null
        && matches!(column.default, Value::Null)
        && matches!(column.collation, Collation::Binary)
}

/// Whether the columns are the keeper's.
fn are_columns(columns: &[Column]) -> bool
    ensures { IsTrue result → columns.now ≡ cell.columns }
{
    match columns {
        [tab, key, val] => {
            is_column(tab, b"tab", Kind::Integer)
                && is_column(key, b"key", Kind::Blob)
                && is_column(val, b"val", Kind::Blob)
        }
        _ => false,
    }
}

/// Whether these are the places of the table's number and of the key.
fn is_key(places: &Items<usize>) -> bool
    ensures { IsTrue result → places.now ≡ cell.primary }
{
    places.as_slice() == [1, 2].as_slice()
}

/// Whether the table's number and the key are the only key of a row.
fn are_keys(table: &Table) -> bool
    ensures primary { IsTrue result → table.now.primary ≡ cell.primary }
    ensures uniques { IsTrue result → table.now.uniques ≡ cell.uniques }
    ensures orders { IsTrue result → table.now.orders ≡ cell.orders }
{
    let [unique] = table.uniques.as_slice() else {
        return false;
    };
    let [order] = table.orders.as_slice() else {
        return false;
    };
    is_key(&table.primary) && is_key(unique) && order.digits == 0
}

/// Whether the terms are none.
fn are_none(alloc: Global, terms: &Terms) -> Result<bool, AllocError>
    ensures { IfOk result (λ none. IsTrue none → terms.now ≡ []) }
{
    let lent = terms.lend(alloc)?;
    Ok(lent.roots.is_empty())
}

/// Whether no value of a row is made by the statement.
#[tactic(auto, using(crate::proofs::SchemaIs::stamps_are))]
fn is_unstamped(alloc: Global, stamps: &Stamps) -> Result<bool, AllocError>
    ensures { IfOk result (λ none. IsTrue none → stamps.now ≡ cell.stamps) }
{
    let none = are_none(alloc, &stamps.terms)?;
    Ok(none && stamps.places.is_empty() && stamps.formats.is_empty())
}

/// Whether nothing is asked of a row but its columns and its key.
fn asks_no_more(alloc: Global, table: &Table) -> Result<bool, AllocError>
    ensures checks { IfOk result (λ none. IsTrue none → table.now.checks ≡ []) }
    ensures references { IfOk result (λ none. IsTrue none → table.now.references ≡ []) }
    ensures computed { IfOk result (λ none. IsTrue none → table.now.computed ≡ []) }
    ensures stamps { IfOk result (λ none. IsTrue none → table.now.stamps ≡ cell.stamps) }
{
    let unchecked = are_none(alloc, &table.checks)?;
    let unstamped = is_unstamped(alloc, &table.stamps)?;
    Ok(unchecked && unstamped && table.references.is_empty() && table.computed.is_empty())
}

/// Whether the table is the keeper's.
#[tactic(auto, using(crate::proofs::SchemaIs::table_is))]
fn is_cell(alloc: Global, table: &Table) -> Result<bool, AllocError>
    ensures { IfOk result (λ same. IsTrue same → table.now ≡ cell) }
{
    let plain = asks_no_more(alloc, table)?;
    Ok(
        plain
            && table.name.as_slice() == b"cell".as_slice()
            && table.tree == 0
            && are_columns(table.columns.as_slice())
            && table.key.is_none()
            && are_keys(table)
            && !table.is_counted,
    )
}

/// Whether the index is the one that SQLite makes for the key of the keeper's table.
#[tactic(auto, using(crate::proofs::SchemaIs::index_is))]
fn is_cell_index(index: &Index) -> bool
    ensures { IsTrue result → index.now ≡ cell_index }
{
    index.name.as_slice() == b"sqlite_autoindex_cell_1".as_slice()
        && index.tree == 1
        && index.table == 0
        && is_key(&index.columns)
        && index.order.digits == 0
        && index.is_unique
}

/// Whether the only table is the keeper's.
fn has_table(alloc: Global, schema: &Schema) -> Result<bool, AllocError>
    ensures { IfOk result (λ same. IsTrue same → schema.now.tables ≡ cell ∷ []) }
{
    match schema.tables.as_slice() {
        [table] => is_cell(alloc, table),
        _ => Ok(false),
    }
}

/// Whether the only index is that of its key.
fn has_index(schema: &Schema) -> bool
    ensures { IsTrue result → schema.now.indexes ≡ cell_index ∷ [] }
{
    match schema.indexes.as_slice() {
        [index] => is_cell_index(index),
        _ => false,
    }
}

/// Whether the database has the keeper's table, and nothing else.
fn is_keepers(alloc: Global, schema: &Schema) -> Result<bool, AllocError>
    ensures { IfOk result (λ same. IsTrue same → schema.now ≡ the_schema) }
{
    if !has_table(alloc, schema)? {
        return Ok(false);
    }
    if !has_index(schema) {
        return Ok(false);
    }
    Ok(schema.views.is_empty())
}

/// Whether no row is shown.
fn shows_none(rows: &[Row]) -> bool
    ensures { IsTrue result → rows.now ≡ [] }
{
    rows.is_empty()
}

/// Whether a row of the keeper's table has a number that no table of a keeper has.
fn has_strays<S: Alter>(conn: &mut Connection<S>) -> Result<bool, Error>
    ensures none { HasCleanDisk (state S.Store conn.new)
        → (state S.Store conn.old).now.schema ≡ the_schema
        → IfOk result (λ some. some ≡ false
        → filter is_stray ((state S.Store conn.old).now.trees 0) ≡ []) }
    ensures unchanged { HasCleanDisk (state S.Store conn.new)
        → (state S.Store conn.old).now.schema ≡ the_schema
        → OnOk result (IsUnchanged (state S.Store conn.old) (state S.Store conn.new)) }
    ensures clean { HasCleanDisk (state S.Store conn.new) → HasCleanDisk (state S.Store conn.old) }
    ensures idle { conn.old.in_transaction ≡ false → conn.new.in_transaction ≡ false }
{
    let rows = run_strays(conn)?;
    let none = shows_none(rows.as_slice());
    Ok(!none)
}

/// The connection, opened anew over its store, which gives up what is not committed; and what its
/// first tree is.
fn reopened<S: Alter + Drop>(
    alloc: Global,
    conn: Connection<S>,
) -> Result<(Connection<S>, Shape), Error>
    ensures opens { IfOk result (λ it. HasCleanDisk (state S.Store it.0)
        → Opens (state S.Store it.0) × IsLive (state S.Store it.0)) }
    ensures same { IfOk result (λ it. HasCleanDisk (state S.Store it.0)
        → (state S.Store it.0).now.trees ≡ (state S.Store conn).committed.trees) }
    ensures shaped { IfOk result (λ it. HasCleanDisk (state S.Store it.0)
        → IsShaped it.1 ((state S.Store it.0).now.trees 0)) }
    ensures idle { IfOk result (λ it. it.0.in_transaction ≡ false) }
{
    let store = conn.into_store();
    if store.is_broken() {
        return Err(Error::SqliteFailure(ErrorCode::CannotOpen));
    }
    let shape = store.shape(0);
    match Connection::over(alloc, store) {
        Ok(conn) => Ok((conn, shape)),
        Err((error, _store)) => Err(error),
    }
}

/// Makes the table in a database that has nothing in it.
fn make_first<S: Alter>(conn: &mut Connection<S>, shape: Shape) -> Result<(), Error>
    requires idle { conn.old.in_transaction ≡ false }
    requires bare { (state S.Store conn.old).now.schema ≡ no_schema }
    requires shaped { HasCleanDisk (state S.Store conn.old)
        → IsShaped shape ((state S.Store conn.old).now.trees 0) }
    ensures kept { HasCleanDisk (state S.Store conn.new)
        → OnOk result (IsKept (state S.Store conn.new).now) }
    ensures map { HasCleanDisk (state S.Store conn.new) → OnOk result
        (tables_in (state S.Store conn.new).now ≡ tables_in (state S.Store conn.old).now) }
    ensures clean { HasCleanDisk (state S.Store conn.new) → HasCleanDisk (state S.Store conn.old) }
{
    let Shape::Absent = shape else {
        return Err(NOT_A_KEEPERS);
    };
    create(conn)?;
    Ok(())
}

/// Sees that the rows of the keeper's table are cells.
fn see_rows<S: Alter>(conn: &mut Connection<S>, shape: Shape) -> Result<(), Error>
    requires keepers { (state S.Store conn.old).now.schema ≡ the_schema }
    requires live { IsLive (state S.Store conn.old) }
    requires shaped { HasCleanDisk (state S.Store conn.old)
        → IsShaped shape ((state S.Store conn.old).now.trees 0) }
    ensures kept { HasCleanDisk (state S.Store conn.new)
        → OnOk result (IsKept (state S.Store conn.new).now) }
    ensures map { HasCleanDisk (state S.Store conn.new) → OnOk result
        (tables_in (state S.Store conn.new).now ≡ tables_in (state S.Store conn.old).now) }
    ensures clean { HasCleanDisk (state S.Store conn.new) → HasCleanDisk (state S.Store conn.old) }
{
    let Shape::Table = shape else {
        return Err(NOT_A_KEEPERS);
    };
    if has_strays(conn)? {
        return Err(NOT_A_KEEPERS);
    }
    Ok(())
}

/// Makes the table in a database that has nothing in it, or sees that it is there.
fn settle<S: Alter>(conn: &mut Connection<S>, alloc: Global, shape: Shape) -> Result<(), Error>
    requires idle { conn.old.in_transaction ≡ false }
    requires shaped { HasCleanDisk (state S.Store conn.old)
        → IsShaped shape ((state S.Store conn.old).now.trees 0) }
    ensures kept { HasCleanDisk (state S.Store conn.new)
        → OnOk result (IsKept (state S.Store conn.new).now) }
    ensures map { HasCleanDisk (state S.Store conn.new) → OnOk result
        (tables_in (state S.Store conn.new).now ≡ tables_in (state S.Store conn.old).now) }
    ensures clean { HasCleanDisk (state S.Store conn.new) → HasCleanDisk (state S.Store conn.old) }
{
    if is_bare(conn.schema()) {
        return make_first(conn, shape);
    }
    if is_keepers(alloc, conn.schema())? {
        return see_rows(conn, shape);
    }
    Err(NOT_A_KEEPERS)
}

/// The connection, once its database has the keeper's table and nothing else.
pub(crate) fn adopted<S: Alter + Drop>(
    alloc: Global,
    conn: Connection<S>,
) -> Result<Connection<S>, Error>
    ensures kept { IfOk result (λ c. IsTrue (state S.Store c).is_open
        → IsKept (state S.Store c).now) }
    ensures map { IfOk result (λ c. IsTrue (state S.Store c).is_open
        → tables_in (state S.Store c).now ≡ tables_in (state S.Store conn).committed) }
    ensures idle { IfOk result (λ c. c.in_transaction ≡ false) }
{
    let (mut conn, shape) = reopened(alloc, conn)?;
    settle(&mut conn, alloc, shape)?;
    if !conn.is_autocommit() {
        return Err(Error::SqliteFailure(ErrorCode::CannotOpen));
    }
    Ok(conn)
}
