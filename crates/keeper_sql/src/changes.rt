//! The changes of a batch, made in one transaction.

ghost use Rattle.std.specs.Prelude.{◌≡◌, false, IsTrue, OnOk, OnErr};
ghost use Rattle.std.specs.FinMap as finite;
ghost use Rattle.sqlite.specs.Held.{state};
ghost use Rattle.sqlite.specs.State.{HasCleanDisk, KeepsCommit, Survives};
ghost use Rattle.keeper_core.specs.Batches.{after_change, after_batch};
ghost use Rattle.keeper_sql.specs.CellRows.{Becomes, IsKept, GoesOnWith, tables_in};

use crate::statements::{run_delete, run_put};
use keeper_core::Change;
use sqlite::{Alter, Connection, Error, Transaction};

/// Takes a cell's value out.
fn take_out<S: Alter>(tx: &mut Transaction<'_, S>, tab: u8, key: &[u8]) -> Result<(), Error>
    ensures same_reference { tx.new.conn.ghost_name ≡ tx.old.conn.ghost_name }
    ensures gone { HasCleanDisk (state S.Store tx.new.conn.now)
        → IsTrue (state S.Store tx.old.conn.now).in_transaction
        → IsKept (state S.Store tx.old.conn.now).now
        → OnOk result (GoesOnWith (state S.Store tx.new.conn.now)
        (finite.remove (tables_in (state S.Store tx.old.conn.now).now) (tab, key.now))) }
    ensures inside { HasCleanDisk (state S.Store tx.new.conn.now)
        → IsTrue (state S.Store tx.old.conn.now).in_transaction
        → OnOk result (IsTrue (state S.Store tx.new.conn.now).in_transaction) }
    ensures kept { HasCleanDisk (state S.Store tx.new.conn.now)
        → IsTrue (state S.Store tx.old.conn.now).in_transaction
        → KeepsCommit (state S.Store tx.old.conn.now) (state S.Store tx.new.conn.now) }
    ensures survives { Survives (state S.Store tx.old.conn.now) (state S.Store tx.new.conn.now)
        (λ _. ⊥) }
{
    run_delete(tx, tab, key)?;
    Ok(())
}

/// Gives a cell a value.
fn put_in<S: Alter>(
    tx: &mut Transaction<'_, S>,
    tab: u8,
    key: &[u8],
    val: &[u8],
) -> Result<(), Error>
    ensures same_reference { tx.new.conn.ghost_name ≡ tx.old.conn.ghost_name }
    ensures there { HasCleanDisk (state S.Store tx.new.conn.now)
        → IsTrue (state S.Store tx.old.conn.now).in_transaction
        → IsKept (state S.Store tx.old.conn.now).now
        → OnOk result (GoesOnWith (state S.Store tx.new.conn.now)
        (finite.insert (tables_in (state S.Store tx.old.conn.now).now)
        (tab, key.now) val.now)) }
    ensures inside { HasCleanDisk (state S.Store tx.new.conn.now)
        → IsTrue (state S.Store tx.old.conn.now).in_transaction
        → OnOk result (IsTrue (state S.Store tx.new.conn.now).in_transaction) }
    ensures kept { HasCleanDisk (state S.Store tx.new.conn.now)
        → IsTrue (state S.Store tx.old.conn.now).in_transaction
        → KeepsCommit (state S.Store tx.old.conn.now) (state S.Store tx.new.conn.now) }
    ensures survives { Survives (state S.Store tx.old.conn.now) (state S.Store tx.new.conn.now)
        (λ _. ⊥) }
{
    run_put(tx, tab, key, val)?;
    Ok(())
}

/// Makes one change.
fn make<S: Alter>(tx: &mut Transaction<'_, S>, change: &Change) -> Result<(), Error>
    ensures same_reference { tx.new.conn.ghost_name ≡ tx.old.conn.ghost_name }
    ensures made { HasCleanDisk (state S.Store tx.new.conn.now)
        → IsTrue (state S.Store tx.old.conn.now).in_transaction
        → IsKept (state S.Store tx.old.conn.now).now
        → OnOk result (GoesOnWith (state S.Store tx.new.conn.now)
        (after_change change.now (tables_in (state S.Store tx.old.conn.now).now))) }
    ensures inside { HasCleanDisk (state S.Store tx.new.conn.now)
        → IsTrue (state S.Store tx.old.conn.now).in_transaction
        → OnOk result (IsTrue (state S.Store tx.new.conn.now).in_transaction) }
    ensures kept { HasCleanDisk (state S.Store tx.new.conn.now)
        → IsTrue (state S.Store tx.old.conn.now).in_transaction
        → KeepsCommit (state S.Store tx.old.conn.now) (state S.Store tx.new.conn.now) }
    ensures survives { Survives (state S.Store tx.old.conn.now) (state S.Store tx.new.conn.now)
        (λ _. ⊥) }
{
    match change {
        Change::Put { tab, key, val } => put_in(tx, *tab, key.as_slice(), val.as_slice()),
        Change::Delete { tab, key } => take_out(tx, *tab, key.as_slice()),
    }
}

/// Makes the changes, one after another.
fn make_each<S: Alter>(tx: &mut Transaction<'_, S>, changes: &[Change]) -> Result<(), Error>
    ensures same_reference { tx.new.conn.ghost_name ≡ tx.old.conn.ghost_name }
    ensures made { HasCleanDisk (state S.Store tx.new.conn.now)
        → IsTrue (state S.Store tx.old.conn.now).in_transaction
        → IsKept (state S.Store tx.old.conn.now).now
        → OnOk result (GoesOnWith (state S.Store tx.new.conn.now)
        (after_batch changes.now (tables_in (state S.Store tx.old.conn.now).now))) }
    ensures inside { HasCleanDisk (state S.Store tx.new.conn.now)
        → IsTrue (state S.Store tx.old.conn.now).in_transaction
        → OnOk result (IsTrue (state S.Store tx.new.conn.now).in_transaction) }
    ensures kept { HasCleanDisk (state S.Store tx.new.conn.now)
        → IsTrue (state S.Store tx.old.conn.now).in_transaction
        → KeepsCommit (state S.Store tx.old.conn.now) (state S.Store tx.new.conn.now) }
    ensures survives { Survives (state S.Store tx.old.conn.now) (state S.Store tx.new.conn.now)
        (λ _. ⊥) }
{
    for change in changes {
        make(tx, change)?;
    }
    Ok(())
}

/// Makes all changes in one transaction, or none.
fn commit_all<S: Alter>(conn: &mut Connection<S>, changes: &[Change]) -> Result<(), Error>
    requires { conn.old.in_transaction ≡ false }
    ensures all { HasCleanDisk (state S.Store conn.new) → IsKept (state S.Store conn.old).now
        → OnOk result (Becomes (state S.Store conn.new)
        (after_batch changes.now (tables_in (state S.Store conn.old).now))) }
    ensures none { HasCleanDisk (state S.Store conn.new) → IsKept (state S.Store conn.old).now
        → IsTrue (state S.Store conn.new).is_open
        → OnErr result ((state S.Store conn.new).now ≡ (state S.Store conn.old).committed) }
    ensures was_open { HasCleanDisk (state S.Store conn.new)
        → IsTrue (state S.Store conn.new).is_open → IsTrue (state S.Store conn.old).is_open }
    ensures ready { conn.new.in_transaction ≡ false }
    ensures clean { HasCleanDisk (state S.Store conn.new) → HasCleanDisk (state S.Store conn.old) }
{
    let mut tx = conn.transaction();
    make_each(&mut tx, changes)?;
    tx.commit()
}

/// Makes all changes in one transaction, or leaves the map as it is.
pub(crate) fn change<S: Alter>(conn: &mut Connection<S>, changes: &[Change]) -> Result<(), Error>
    requires { conn.old.in_transaction ≡ false }
    ensures all { IsTrue (state S.Store conn.new).is_open
        → (IsTrue (state S.Store conn.old).is_open → IsKept (state S.Store conn.old).now)
        → OnOk result (Becomes (state S.Store conn.new)
        (after_batch changes.now (tables_in (state S.Store conn.old).now))) }
    ensures none { IsTrue (state S.Store conn.new).is_open
        → (IsTrue (state S.Store conn.old).is_open → IsKept (state S.Store conn.old).now)
        → OnErr result ((state S.Store conn.new).now ≡ (state S.Store conn.old).now) }
    ensures was_open { IsTrue (state S.Store conn.new).is_open
        → IsTrue (state S.Store conn.old).is_open }
    ensures idle { conn.new.in_transaction ≡ false }
{
    let _settled = conn.is_autocommit();
    commit_all(conn, changes)
}
