//! A keeper in memory.

ghost use Rattle.std.specs.Prelude.{◌≡◌, ◌↔◌, ◌+◌, [], ◌∷◌, Some, None, true, false, Ok, IfOk, OnOk, OnErr, IsErr, IsTrue, if◌then◌else◌};
ghost use Rattle.std.specs.Option.{option_copied};
ghost use Rattle.std.specs.Result.{IsErrOf};
ghost use Rattle.std.specs.FinMap as finite;
ghost use Rattle.keeper_core.specs.Batches.{after_batch};
ghost use Rattle.keeper_core.specs.Knowing.{FailsNext, FailsCommit, LooksAtMost};
ghost use Rattle.keeper_core.specs.Keeping.{AnswersByMap, ListsTable, rows_given};
ghost use Rattle.keeper_core.specs.Leaving.{Leaves, ended, of_keep_fault};
ghost use Rattle.keeper_core.specs.Slots.{filled};
ghost use Rattle.keeper_core.specs.Memory.{known_of, fails_next, after_begin, after_looks, after_failure, after_reading, stopped_with, failure_of_commit, after_commit};

use crate::arm::Arm;
use crate::batch::Batch;
use crate::cells::Cells;
use crate::keep_fault::KeepFault;
use crate::keeper::Keeper;
use crate::row::Row;
use dh_base::{Failed, List, NoMemory};
use std::alloc::Global;
use std::marker::Model;

/// A keeper in memory. It tells its map, and fails and stops where it is told to.
#[derive(Drop)]
pub struct MemKeeper {
    cells: Cells,
    armed: Option<Arm>,
    stopped: bool,
    faults: u64,
    looked: u64,
}

impl Model for MemKeeper {
    ghost use Rattle.keeper_core.specs.Memory.{KeeperTold, keeper_code};

    ghost Value = { KeeperTold };

    ghost coded = { keeper_code };

    ghost use Rattle.keeper_core.specs.Slots.{filled};

    ghost view = { λ k. record {
      tables = filled k.cells;
      armed = k.armed;
      stopped = k.stopped;
      faults = k.faults;
      looked = k.looked;
    } };
}

impl MemKeeper {
    /// A keeper of no rows, which runs and is not armed.
    pub fn new(alloc: Global) -> MemKeeper
        ensures { result ≡ record {
          tables = finite.empty;
          armed = None;
          stopped = false;
          faults = 0;
          looked = 0;
        } }
    {
        MemKeeper::over(Cells::new(alloc))
    }

    /// The keeper of the rows in these slots, which runs and is not armed.
    pub(crate) fn over(cells: Cells) -> MemKeeper
        ensures { result ≡ record {
          tables = filled cells;
          armed = None;
          stopped = false;
          faults = 0;
          looked = 0;
        } }
    {
        MemKeeper {
            cells,
            armed: None,
            stopped: false,
            faults: 0,
            looked: 0,
        }
    }

    /// The slots with the rows.
    pub(crate) fn into_cells(self) -> Cells
        ensures { filled result ≡ self.tables }
    {
        let MemKeeper {
            cells,
            armed: _,
            stopped: _,
            faults: _,
            looked: _,
        } = self;
        cells
    }

    /// Tells the keeper to fail or to stop. What it was told before and hasn't done yet is
    /// forgotten.
    pub fn arm(&mut self, what: Arm)
        ensures { self.new ≡ record self.old { armed = Some what } }
    {
        self.armed = Some(what);
    }

    /// Starts the keeper again, if it has stopped, and disarms it.
    pub fn restart(&mut self)
        ensures { self.new ≡ record self.old { armed = None; stopped = false } }
    {
        self.armed = None;
        self.stopped = false;
    }

    /// Whether the keeper has stopped.
    pub fn has_stopped(&self) -> bool
        ensures { result ≡ self.now.stopped }
    {
        self.stopped
    }

    /// The bytes at a key of a table, also where the keeper has stopped. It takes no memory and
    /// never fails.
    pub fn peek(&self, tab: u8, key: &[u8]) -> Option<&[u8]>
        ensures { option_copied result ≡ finite.get self.now.tables (tab, key.now) }
    {
        self.cells.get(tab, key)
    }

    /// How many calls have failed.
    pub fn faults(&self) -> u64
        ensures { result ≡ self.now.faults }
    {
        self.faults
    }

    /// How many rows were looked up.
    pub fn looked(&self) -> u64
        ensures { result ≡ self.now.looked }
    {
        self.looked
    }

    /// Lets a call begin, or fails it.
    fn begin(&mut self) -> Result<(), Failed>
        ensures fails { IsErr result ↔ IsTrue (fails_next self.old) }
        ensures after { self.new ≡ after_begin self.old }
    {
        let fails = matches!(self.armed, Some(Arm::FailNext));
        if fails {
            self.armed = None;
        }
        if fails || self.stopped {
            self.faults = self.faults.saturating_add(1);
            return Err(Failed);
        }
        Ok(())
    }

    /// Counts rows that are looked up.
    fn look(&mut self, rows: u64)
        ensures after { self.new ≡ after_looks rows self.old }
        ensures looked { LooksAtMost rows (known_of self.old) (known_of self.new) }
    {
        self.looked = self.looked.saturating_add(rows);
    }

    /// Stops the keeper as it is.
    fn stop(&mut self) -> KeepFault
        ensures fault { result ≡ KeepFault.Failed }
        ensures stopped { self.new ≡ stopped_with self.old.tables self.old }
    {
        self.armed = None;
        self.stopped = true;
        self.faults = self.faults.saturating_add(1);
        KeepFault::Failed
    }

    /// Makes all changes of a batch, or none.
    fn apply(&mut self, batch: &Batch) -> Result<(), NoMemory>
        ensures ok { OnOk result (self.new ≡ after_commit batch.now self.old) }
        ensures err { OnErr result (self.new ≡ self.old) }
    {
        self.cells.apply(batch)
    }
}

impl Keeper for MemKeeper {
    ghost known = { known_of };

    fn get(&mut self, tab: u8, key: &[u8]) -> Result<Option<List<u8>>, KeepFault>
        ensures answers { IfOk result (AnswersByMap (Some self.new.tables) tab key.now) }
        ensures leaves { Leaves [] (ended of_keep_fault result)
            (known_of self.old) (known_of self.new) }
        ensures fails { FailsNext (known_of self.old) → IsErrOf result KeepFault.Failed }
        ensures looked { LooksAtMost 1 (known_of self.old) (known_of self.new) }
        ensures told { IsErrOf result KeepFault.Failed ↔ IsTrue (fails_next self.old) }
        ensures after { self.new ≡ after_reading 1 self.old }
    {
        self.begin()?;
        self.look(1);
        Ok(self.cells.read(tab, key)?)
    }

    fn scan(&mut self, tab: u8) -> Result<List<Row>, KeepFault>
        ensures lists { IfOk result (ListsTable (Some self.new.tables) tab) }
        ensures leaves { Leaves [] (ended of_keep_fault result)
            (known_of self.old) (known_of self.new) }
        ensures fails { FailsNext (known_of self.old) → IsErrOf result KeepFault.Failed }
        ensures looked { LooksAtMost (1 + rows_given result)
            (known_of self.old) (known_of self.new) }
        ensures told { IsErrOf result KeepFault.Failed ↔ IsTrue (fails_next self.old) }
        ensures after { self.new ≡ after_reading (1 + rows_given result) self.old }
    {
        self.begin()?;
        self.look(1);
        let rows = self.cells.rows(tab)?;
        self.look(rows.len() as u64);
        Ok(List::from_vec(rows))
    }

    /// Where memory is refused, a stop for which the keeper is armed is still to come.
    fn commit(&mut self, batch: &Batch) -> Result<(), KeepFault>
        ensures leaves { Leaves (batch.now ∷ []) (ended of_keep_fault result)
            (known_of self.old) (known_of self.new) }
        ensures fails { FailsCommit (known_of self.old) → IsErrOf result KeepFault.Failed }
        ensures looked { self.new.looked ≡ self.old.looked }
        ensures told { OnOk result (failure_of_commit batch.now self.old ≡ None) }
        ensures ok { OnOk result (self.new ≡ after_commit batch.now self.old) }
        ensures fault { IsErrOf result KeepFault.Failed
            → failure_of_commit batch.now self.old ≡ Some self.new }
        ensures no_memory { IsErrOf result KeepFault.NoMemory → self.new ≡ self.old }
    {
        self.begin()?;
        match self.armed {
            Some(Arm::StopBefore) => Err(self.stop()),
            Some(Arm::StopAfter) => {
                self.apply(batch)?;
                Err(self.stop())
            }
            Some(Arm::FailNext) | None => {
                self.apply(batch)?;
                Ok(())
            }
        }
    }
}
