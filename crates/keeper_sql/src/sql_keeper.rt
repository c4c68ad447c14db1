//! A keeper over a database.

ghost use Rattle.std.specs.Prelude.{◌≡◌, ◌≤◌, ◌+◌, IsTrue, Some, false, Ok, IfOk, IfSome, OnOk};
ghost use Rattle.std.specs.Result.{IsErrOf};
ghost use Rattle.dh_base.specs.Faults.{HasRisen};
ghost use Rattle.std.specs.FinMap as finite;
ghost use Rattle.sqlite.specs.Held.{state};
ghost use Rattle.sqlite.specs.Steps.{over_memory};
ghost use Rattle.keeper_sql.specs.CellRows.{IsKept, tables_in, told_by, schema_code, rows_code};
ghost use Rattle.sqlite_trees.specs.Props.{IsAscending-prop};
ghost use Rattle.std.proofs.Props.{props};

use crate::adoption::adopted;
use crate::changes::change;
use crate::reads::{list, look};
use crate::statements::create;
use dh_base::List;
use keeper_core::{Batch, KeepFault, Keeper, Row};
use sqlite::{Alter, Connection, Error, ErrorCode, MemStore};
use std::alloc::Global;

/// A keeper over the table of a database. It tells its map while the connection is open and its
/// disk has returned what was written.
#[derive(Drop)]
pub struct SqlKeeper<S: Alter> {
    conn: Connection<S>,
    alloc: Global,
    faults: u64,
    looked: u64,
    ghost idle: { conn.in_transaction ≡ false },
    ghost kept: { IsTrue (state S.Store conn).is_open → IsKept (state S.Store conn).now } by { Prim.hlevel (props, schema_code, rows_code, IsAscending-prop) },
}

/// What a call refuses where the database refuses it. All but want of memory is counted.
pub(crate) fn refusal(error: Error, faults: &mut u64) -> KeepFault
    ensures failed { result ≡ KeepFault.Failed → HasRisen faults.old faults.new }
    ensures no_memory { result ≡ KeepFault.NoMemory → faults.new ≡ faults.old }
    ensures count { faults.old ≤ faults.new }
{
    match error {
        Error::SqliteFailure(ErrorCode::OutOfMemory) => KeepFault::NoMemory,
        _ => {
            *faults = faults.saturating_add(1);
            KeepFault::Failed
        }
    }
}

/// Opens a database in memory with the table.
fn fresh(alloc: Global) -> Result<Connection<MemStore>, Error>
    ensures idle { IfOk result (λ conn. conn.in_transaction ≡ false) }
    ensures kept { IfOk result (λ conn. IsKept (state over_memory conn).now) }
    ensures empty { IfOk result (λ conn. tables_in (state over_memory conn).now ≡ finite.empty) }
{
    let mut conn = Connection::open_in_memory(alloc)?;
    create(&mut conn)?;
    Ok(conn)
}

impl SqlKeeper<MemStore> {
    ghost use Rattle.keeper_sql.specs.CellRows.{known_by, known_first};

    /// A keeper of no rows over a database in memory. Its count of faults begins at the number that
    /// is handed in.
    pub fn in_memory(alloc: Global, faults: &mut u64) -> Result<SqlKeeper<MemStore>, KeepFault>
        ensures known { IfOk result (λ k. known_by (state over_memory k.conn) k.faults k.looked
            ≡ known_first (Some finite.empty) faults.new) }
        ensures quiet { OnOk result (faults.new ≡ faults.old) }
        ensures failed { IsErrOf result KeepFault.Failed → HasRisen faults.old faults.new }
        ensures no_memory { IsErrOf result KeepFault.NoMemory → faults.new ≡ faults.old }
    {
        match fresh(alloc) {
            Ok(conn) => Ok(SqlKeeper {
                conn,
                alloc,
                faults: *faults,
                looked: 0,
            }),
            Err(error) => Err(refusal(error, faults)),
        }
    }
}

impl<S: Alter> SqlKeeper<S> {
    /// How many calls have failed.
    pub fn faults(&self) -> u64
        ensures { result ≡ self.now.faults }
    {
        self.faults
    }

    /// How many rows were looked up.
    pub fn looked(&self) -> u64
        ensures { result ≡ self.now.looked }
    {
        self.looked
    }
}

impl<S: Alter + Drop> SqlKeeper<S> {
    /// A keeper over an open connection, whose database has the keeper's table and nothing else, or
    /// nothing at all; then the table is made. Its count of faults begins at the number that is
    /// handed in. The connection is opened anew, so what it has not committed is given up; where
    /// the call is refused, the connection is.
    pub fn adopt(
        alloc: Global,
        connection: Connection<S>,
        faults: &mut u64,
    ) -> Result<SqlKeeper<S>, KeepFault>
        ensures map { IfOk result (λ k. IfSome (told_by (state S.Store k.conn))
            (λ tables. tables ≡ tables_in (state S.Store connection).committed)) }
        ensures begins { IfOk result (λ k. (k.faults ≡ faults.new) × (k.looked ≡ 0)) }
        ensures quiet { OnOk result (faults.new ≡ faults.old) }
        ensures failed { IsErrOf result KeepFault.Failed → HasRisen faults.old faults.new }
        ensures no_memory { IsErrOf result KeepFault.NoMemory → faults.new ≡ faults.old }
    {
        match adopted(alloc, connection) {
            Ok(conn) => Ok(SqlKeeper {
                conn,
                alloc,
                faults: *faults,
                looked: 0,
            }),
            Err(error) => Err(refusal(error, faults)),
        }
    }
}

/// A count of look-ups with so many more. It stays at its greatest value.
fn more(looked: u64, rows: usize) -> u64
    ensures rises { looked ≤ result }
    ensures most { result ≤ looked + rows }
{
    looked.saturating_add(rows as u64)
}

impl<S: Alter> Keeper for SqlKeeper<S> {
    ghost use Rattle.keeper_sql.specs.CellRows.{known_by};

    ghost known = { λ k. known_by (state S.Store k.conn) k.faults k.looked };

    fn get(&mut self, tab: u8, key: &[u8]) -> Result<Option<List<u8>>, KeepFault> {
        self.looked = more(self.looked, 1);
        match look(&mut self.conn, tab, key) {
            Ok(val) => Ok(val),
            Err(error) => Err(refusal(error, &mut self.faults)),
        }
    }

    fn scan(&mut self, tab: u8) -> Result<List<Row>, KeepFault> {
        self.looked = more(self.looked, 1);
        match list(&mut self.conn, self.alloc, tab) {
            Ok(rows) => {
                self.looked = more(self.looked, rows.len());
                Ok(rows)
            }
            Err(error) => Err(refusal(error, &mut self.faults)),
        }
    }

    fn commit(&mut self, batch: &Batch) -> Result<(), KeepFault> {
        match change(&mut self.conn, batch.changes()) {
            Ok(()) => Ok(()),
            Err(error) => Err(refusal(error, &mut self.faults)),
        }
    }
}
