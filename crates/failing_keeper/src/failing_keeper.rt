//! A keeper in memory of which one call fails.

ghost use Rattle.std.specs.Prelude.{◌≡◌, ◌+◌, [], ◌∷◌, Some, None, false, is_some, IfOk};
ghost use Rattle.std.specs.FinMap.{empty};
ghost use Rattle.std.specs.Result.{IsErrOf};
ghost use Rattle.keeper_core.specs.Keeping.{AnswersByMap, ListsTable, rows_given};
ghost use Rattle.keeper_core.specs.Knowing.{FailsNext, FailsCommit, LooksAtMost};
ghost use Rattle.keeper_core.specs.Leaving.{Leaves, ended, of_keep_fault};
ghost use Rattle.failing_keeper.specs.Failing.{one_fewer, known_of};

use dh_base::List;
use keeper_core::{Arm, Batch, KeepFault, Keeper, MemKeeper, Row};
use std::alloc::Global;

/// A keeper in memory that is told how many calls go before the one that fails. It never stops, and
/// doesn't tell what is to come.
#[derive(Drop)]
pub struct FailingKeeper {
    keeper: MemKeeper,
    before: Option<u32>,
}

impl FailingKeeper {
    /// A keeper of no rows, of which no call is to fail.
    pub fn new(alloc: Global) -> FailingKeeper
        ensures rows { result.keeper.tables ≡ empty }
        ensures runs { result.keeper.stopped ≡ false }
        ensures none { result.before ≡ None }
    {
        FailingKeeper {
            keeper: MemKeeper::new(alloc),
            before: None,
        }
    }

    /// The call behind so many calls is to fail.
    pub fn fail_behind(&mut self, calls: u32)
        ensures { self.new ≡ record self.old { before = Some calls } }
    {
        self.before = Some(calls);
    }

    /// Whether a call is still to fail.
    pub fn is_armed(&self) -> bool
        ensures { result ≡ is_some self.now.before }
    {
        self.before.is_some()
    }

    /// No call is to fail.
    pub fn disarm(&mut self)
        ensures { self.new ≡ record self.old { before = None } }
    {
        self.before = None;
    }

    /// Counts a call, and arms the keeper for the one that is to fail.
    fn count(&mut self)
        ensures before { self.new.before ≡ one_fewer self.old.before }
        ensures now { self.old.before ≡ Some 0
            → self.new.keeper ≡ record self.old.keeper { armed = Some Arm.FailNext } }
        ensures known { known_of self.new ≡ known_of self.old }
    {
        match self.before {
            None => {}
            Some(0) => {
                self.keeper.arm(Arm::FailNext);
                self.before = None;
            }
            Some(calls) => self.before = Some(calls - 1),
        }
    }
}

impl Keeper for FailingKeeper {
    ghost known = { known_of };

    fn get(&mut self, tab: u8, key: &[u8]) -> Result<Option<List<u8>>, KeepFault>
        ensures answers { IfOk result (AnswersByMap (Some self.new.keeper.tables) tab key.now) }
        ensures leaves { Leaves [] (ended of_keep_fault result)
            (known_of self.old) (known_of self.new) }
        ensures fails { FailsNext (known_of self.old) → IsErrOf result KeepFault.Failed }
        ensures looked { LooksAtMost 1 (known_of self.old) (known_of self.new) }
        ensures before { self.new.before ≡ one_fewer self.old.before }
        ensures now { self.old.before ≡ Some 0 → IsErrOf result KeepFault.Failed }
    {
        self.count();
        self.keeper.get(tab, key)
    }

    fn scan(&mut self, tab: u8) -> Result<List<Row>, KeepFault>
        ensures lists { IfOk result (ListsTable (Some self.new.keeper.tables) tab) }
        ensures leaves { Leaves [] (ended of_keep_fault result)
            (known_of self.old) (known_of self.new) }
        ensures fails { FailsNext (known_of self.old) → IsErrOf result KeepFault.Failed }
        ensures looked { LooksAtMost (1 + rows_given result)
            (known_of self.old) (known_of self.new) }
        ensures before { self.new.before ≡ one_fewer self.old.before }
        ensures now { self.old.before ≡ Some 0 → IsErrOf result KeepFault.Failed }
    {
        self.count();
        self.keeper.scan(tab)
    }

    fn commit(&mut self, batch: &Batch) -> Result<(), KeepFault>
        ensures leaves { Leaves (batch.now ∷ []) (ended of_keep_fault result)
            (known_of self.old) (known_of self.new) }
        ensures fails { FailsCommit (known_of self.old) → IsErrOf result KeepFault.Failed }
        ensures looked { (known_of self.new).looked ≡ (known_of self.old).looked }
        ensures before { self.new.before ≡ one_fewer self.old.before }
        ensures now { self.old.before ≡ Some 0 → IsErrOf result KeepFault.Failed }
    {
        self.count();
        self.keeper.commit(batch)
    }
}
