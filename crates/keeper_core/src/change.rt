//! One change of what is kept.

ghost use Rattle.std.specs.Prelude.{◌≡◌, IfOk};

use dh_base::{List, NoMemory};
use std::alloc::{AllocError, Global};

/// What a commit does to one key of a table.
#[derive(Debug, Drop)]
pub enum Change {
    /// The key has these bytes from then on.
    Put {
        tab: u8,
        key: List<u8>,
        val: List<u8>,
    },
    /// The key has none.
    Delete {
        tab: u8,
        key: List<u8>,
    },
}

fn copied(alloc: Global, bytes: &[u8]) -> Result<List<u8>, AllocError>
    ensures { IfOk result (λ copy. copy ≡ bytes.now) }
{
    Ok(List::from_vec(bytes.to_vec(alloc)?))
}

impl Change {
    /// The change that puts bytes at a key.
    pub fn put(alloc: Global, tab: u8, key: &[u8], val: &[u8]) -> Result<Change, NoMemory>
        ensures { IfOk result (λ change. change ≡ Change.Put tab key.now val.now) }
    {
        let key = copied(alloc, key)?;
        let val = copied(alloc, val)?;
        Ok(Change::Put { tab, key, val })
    }

    /// The change that leaves a key without bytes.
    pub fn delete(alloc: Global, tab: u8, key: &[u8]) -> Result<Change, NoMemory>
        ensures { IfOk result (λ change. change ≡ Change.Delete tab key.now) }
    {
        let key = copied(alloc, key)?;
        Ok(Change::Delete { tab, key })
    }

    /// The same change in memory of its own.
    pub fn copied(&self, alloc: Global) -> Result<Change, NoMemory>
        ensures { IfOk result (λ change. change ≡ self.now) }
    {
        match self {
            Change::Put { tab, key, val } => {
                Change::put(alloc, *tab, key.as_slice(), val.as_slice())
            }
            Change::Delete { tab, key } => Change::delete(alloc, *tab, key.as_slice()),
        }
    }
}
