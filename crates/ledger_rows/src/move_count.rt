//! How many transfers a party has made.

use crate::fields::u32_at;
use crate::row_value::RowValue;
use dh_base::NoMemory;
use std::alloc::Global;

/// How many transfers a party has made in a deal: one at least.
#[derive(Clone, Copy, Debug, PartialEq, Eq)]
pub struct MoveCount {
    pub count: u32,
}

impl MoveCount {
    ghost use Rattle.std.specs.Prelude.{◌≡◌};
    ghost use Rattle.ledger_rows.specs.RowValues.{moves_in};

    fn in_bytes(bytes: &[u8]) -> Option<MoveCount>
        ensures { result ≡ moves_in bytes.now }
    {
        if bytes.len() != 4 {
            return None;
        }
        let count = u32_at(bytes, 0);
        if count == 0 {
            return None;
        }
        Some(MoveCount { count })
    }
}

impl RowValue for MoveCount {
    ghost use Rattle.ledger_rows.specs.RowValues.{moves_in};

    ghost value_of = { moves_in };

    fn from_bytes(_alloc: Global, bytes: &[u8]) -> Result<Option<MoveCount>, NoMemory> {
        Ok(MoveCount::in_bytes(bytes))
    }
}
