//! Rows of a table.

ghost use Rattle.std.specs.Prelude.{◌≡◌, IfOk};

use dh_base::{List, NoMemory};
use std::alloc::Global;

/// A key of a table, and the bytes that it has.
#[derive(Debug, Drop)]
pub struct Row {
    pub key: List<u8>,
    pub val: List<u8>,
}

impl Row {
    /// The row of these bytes, in memory of its own.
    pub fn copied(alloc: Global, key: &[u8], val: &[u8]) -> Result<Row, NoMemory>
        ensures { IfOk result (λ row. row ≡ record { key = key.now; val = val.now }) }
    {
        Ok(Row {
            key: List::from_vec(key.to_vec(alloc)?),
            val: List::from_vec(val.to_vec(alloc)?),
        })
    }
}
