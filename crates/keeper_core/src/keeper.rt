//! What a node keeps its rows in.

ghost use Rattle.std.specs.Prelude.{◌≡◌, ◌+◌, [], ◌∷◌, Ok, IfOk};
ghost use Rattle.std.specs.Result.{IsErrOf};
ghost use Rattle.keeper_core.specs.Knowing.{Known, FailsNext, FailsCommit, LooksAtMost};
ghost use Rattle.keeper_core.specs.Keeping.{AnswersByMap, ListsTable, rows_given};
ghost use Rattle.keeper_core.specs.Leaving.{Leaves, ended, of_keep_fault};

use crate::batch::Batch;
use crate::keep_fault::KeepFault;
use crate::row::Row;
use dh_base::List;

/// A keeper of rows: one finite map from a table and a key to bytes, with a count of the calls that
/// failed and one of the rows that were looked up. A keeper may stop at a commit. From then on each
/// call fails, until it is started again.
pub trait Keeper {
    ghost known: { Self → Known };

    /// The bytes at a key of a table, if it has any.
    fn get(&mut self, tab: u8, key: &[u8]) -> Result<Option<List<u8>>, KeepFault>
        ensures answers { IfOk result (AnswersByMap (known self.new).tables tab key.now) }
        ensures leaves { Leaves [] (ended of_keep_fault result) (known self.old) (known self.new) }
        ensures fails { FailsNext (known self.old) → IsErrOf result KeepFault.Failed }
        ensures looked { LooksAtMost 1 (known self.old) (known self.new) };

    /// The rows of a table, in ascending order of their keys.
    fn scan(&mut self, tab: u8) -> Result<List<Row>, KeepFault>
        ensures lists { IfOk result (ListsTable (known self.new).tables tab) }
        ensures leaves { Leaves [] (ended of_keep_fault result) (known self.old) (known self.new) }
        ensures fails { FailsNext (known self.old) → IsErrOf result KeepFault.Failed }
        ensures looked { LooksAtMost (1 + rows_given result) (known self.old) (known self.new) };

    /// Makes all changes of the batch, in their order, or none. Only where the keeper stops by this
    /// call may all changes be made though the answer is `Failed`.
    fn commit(&mut self, batch: &Batch) -> Result<(), KeepFault>
        ensures leaves { Leaves (batch.now ∷ []) (ended of_keep_fault result)
            (known self.old) (known self.new) }
        ensures fails { FailsCommit (known self.old) → IsErrOf result KeepFault.Failed }
        ensures looked { (known self.new).looked ≡ (known self.old).looked };
}
