//! The statements that a keeper runs on its database, each with what the library says of it.

ghost use Rattle.std.specs.Prelude.{◌≡◌, ◌∷◌, [], pos, false, IsTrue, IfOk, IfErr, OnOk};
ghost use Rattle.std.specs.FinMap as finite;
ghost use Rattle.sqlite.specs.Held.{state};
ghost use Rattle.sqlite.specs.State.{HasCleanDisk, KeepsCommit, Survives, ExecutesInside, FailsToQuery, Shown};
ghost use Rattle.sqlite.specs.declared.types.Value.TheVariants.{Int, Blob};
ghost use Rattle.keeper_sql.specs.Statements.{no_schema, get_text, scan_text, put_text, del_text, stray_text};
ghost use Rattle.keeper_sql.specs.CellRows.{IsKept, tables_in};

use sqlite::{Alter, Connection, Error, Row, Transaction, params};

const CREATE: &str =
    "CREATE TABLE cell(tab INTEGER NOT NULL, key BLOB NOT NULL, val BLOB NOT NULL, PRIMARY KEY (tab, key)) STRICT";

const GET: &str = "SELECT val FROM cell WHERE tab = ?1 AND key = ?2";

const SCAN: &str = "SELECT key, val FROM cell WHERE tab = ?1 ORDER BY key";

const PUT: &str =
    "INSERT INTO cell(tab, key, val) VALUES (?1, ?2, ?3) ON CONFLICT(tab, key) DO UPDATE SET val = excluded.val";

const STRAYS: &str = "SELECT tab FROM cell WHERE tab < 0 OR tab > 255";

const DELETE: &str = "DELETE FROM cell WHERE tab = ?1 AND key = ?2";

/// Runs the selection of a value.
pub(crate) fn run_get<S: Alter>(
    conn: &mut Connection<S>,
    tab: u8,
    key: &[u8],
) -> Result<Vec<Row>, Error>
    ensures shown { HasCleanDisk (state S.Store conn.new)
        → IfOk result (λ rows. Shown get_text (Int (pos tab) ∷ Blob key.now ∷ [])
        (state S.Store conn.old) (state S.Store conn.new) rows.items) }
    ensures failed { HasCleanDisk (state S.Store conn.new)
        → IfErr result (FailsToQuery get_text (Int (pos tab) ∷ Blob key.now ∷ [])
        (state S.Store conn.old) (state S.Store conn.new)) }
    ensures idle { conn.old.in_transaction ≡ false → conn.new.in_transaction ≡ false }
{
    conn.query_all(GET, params![i64::from(tab), key])
}

/// Runs the selection of a table's rows.
pub(crate) fn run_scan<S: Alter>(conn: &mut Connection<S>, tab: u8) -> Result<Vec<Row>, Error>
    ensures shown { HasCleanDisk (state S.Store conn.new)
        → IfOk result (λ rows. Shown scan_text (Int (pos tab) ∷ []) (state S.Store conn.old)
        (state S.Store conn.new) rows.items) }
    ensures failed { HasCleanDisk (state S.Store conn.new)
        → IfErr result (FailsToQuery scan_text (Int (pos tab) ∷ []) (state S.Store conn.old)
        (state S.Store conn.new)) }
    ensures idle { conn.old.in_transaction ≡ false → conn.new.in_transaction ≡ false }
{
    conn.query_all(SCAN, params![i64::from(tab)])
}

/// Runs the insertion, which updates a value that is there.
pub(crate) fn run_put<S: Alter>(
    tx: &mut Transaction<'_, S>,
    tab: u8,
    key: &[u8],
    val: &[u8],
) -> Result<usize, Error>
    ensures same_reference { tx.new.conn.ghost_name ≡ tx.old.conn.ghost_name }
    ensures runs { HasCleanDisk (state S.Store tx.new.conn.now)
        → IsTrue (state S.Store tx.old.conn.now).in_transaction
        → ExecutesInside 0 put_text (Int (pos tab) ∷ Blob key.now ∷ Blob val.now ∷ [])
        (state S.Store tx.old.conn.now) (state S.Store tx.new.conn.now) result }
    ensures kept { HasCleanDisk (state S.Store tx.new.conn.now)
        → IsTrue (state S.Store tx.old.conn.now).in_transaction
        → KeepsCommit (state S.Store tx.old.conn.now) (state S.Store tx.new.conn.now) }
    ensures survives { Survives (state S.Store tx.old.conn.now) (state S.Store tx.new.conn.now)
        (λ _. ⊥) }
{
    tx.execute(PUT, params![i64::from(tab), key, val])
}

/// Runs the deletion.
pub(crate) fn run_delete<S: Alter>(
    tx: &mut Transaction<'_, S>,
    tab: u8,
    key: &[u8],
) -> Result<usize, Error>
    ensures same_reference { tx.new.conn.ghost_name ≡ tx.old.conn.ghost_name }
    ensures runs { HasCleanDisk (state S.Store tx.new.conn.now)
        → IsTrue (state S.Store tx.old.conn.now).in_transaction
        → ExecutesInside 0 del_text (Int (pos tab) ∷ Blob key.now ∷ [])
        (state S.Store tx.old.conn.now) (state S.Store tx.new.conn.now) result }
    ensures kept { HasCleanDisk (state S.Store tx.new.conn.now)
        → IsTrue (state S.Store tx.old.conn.now).in_transaction
        → KeepsCommit (state S.Store tx.old.conn.now) (state S.Store tx.new.conn.now) }
    ensures survives { Survives (state S.Store tx.old.conn.now) (state S.Store tx.new.conn.now)
        (λ _. ⊥) }
{
    tx.execute(DELETE, params![i64::from(tab), key])
}

/// Makes the table in a database that has none.
pub(crate) fn create<S: Alter>(conn: &mut Connection<S>) -> Result<usize, Error>
    requires { conn.old.in_transaction ≡ false }
    ensures made { HasCleanDisk (state S.Store conn.new)
        → (state S.Store conn.old).now.schema ≡ no_schema
        → OnOk result (IsKept (state S.Store conn.new).now
        × (tables_in (state S.Store conn.new).now ≡ finite.empty)
        × (conn.new.in_transaction ≡ false)) }
    ensures clean { HasCleanDisk (state S.Store conn.new) → HasCleanDisk (state S.Store conn.old) }
{
    conn.execute(CREATE, &[])
}

/// Runs the selection of the rows whose number is none that a table of a keeper has.
pub(crate) fn run_strays<S: Alter>(conn: &mut Connection<S>) -> Result<Vec<Row>, Error>
    ensures shown { HasCleanDisk (state S.Store conn.new) → IfOk result (λ rows.
        Shown stray_text [] (state S.Store conn.old) (state S.Store conn.new) rows.items) }
    ensures clean { HasCleanDisk (state S.Store conn.new) → HasCleanDisk (state S.Store conn.old) }
    ensures idle { conn.old.in_transaction ≡ false → conn.new.in_transaction ≡ false }
{
    conn.query_all(STRAYS, &[])
}
