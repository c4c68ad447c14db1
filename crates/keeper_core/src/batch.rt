//! Batches of changes.

ghost use Rattle.std.specs.Prelude.{◌≡◌, [], ◌∷◌, ◌++◌, OnOk, OnErr};
ghost use Rattle.keeper_core.specs.declared.change.Change.TheVariants.{Put, Delete};

use crate::change::Change;
use dh_base::NoMemory;
use std::alloc::Global;
use std::marker::Model;

/// Changes that are to be committed together, in their order. A contract sees their list.
#[derive(Debug, Drop)]
pub struct Batch {
    alloc: Global,
    changes: Vec<Change>,
}

impl Model for Batch {
    ghost use Rattle.std.specs.Prelude.{List};
    ghost use Rattle.keeper_core.specs.declared.change.Change.{Change};

    ghost Value = { List Change };

    ghost view = { λ b. b.changes.items };
}

impl Batch {
    /// No changes yet.
    pub fn new(alloc: Global) -> Batch
        ensures { result ≡ [] }
    {
        Batch {
            alloc,
            changes: Vec::new(alloc),
        }
    }

    /// Puts bytes at a key of a table, after the other changes.
    pub fn put(&mut self, tab: u8, key: &[u8], val: &[u8]) -> Result<(), NoMemory>
        ensures ok { OnOk result (self.new ≡ self.old ++ Put tab key.now val.now ∷ []) }
        ensures err { OnErr result (self.new ≡ self.old) }
    {
        let change = Change::put(self.alloc, tab, key, val)?;
        self.changes.push(change)?;
        Ok(())
    }

    /// Deletes a key of a table with its bytes, after the other changes. A key that has none stays
    /// so.
    pub fn del(&mut self, tab: u8, key: &[u8]) -> Result<(), NoMemory>
        ensures ok { OnOk result (self.new ≡ self.old ++ Delete tab key.now ∷ []) }
        ensures err { OnErr result (self.new ≡ self.old) }
    {
        let change = Change::delete(self.alloc, tab, key)?;
        self.changes.push(change)?;
        Ok(())
    }

    /// The changes, in their order.
    pub fn changes(&self) -> &[Change]
        ensures { result.now ≡ self.now }
    {
        self.changes.as_slice()
    }
}
