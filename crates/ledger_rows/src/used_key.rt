//! Keys that have signed an accepted act.

use crate::fields::{id_at, u64_at};
use crate::row_value::RowValue;
use dh_base::{Id, NoMemory};
use std::alloc::Global;

/// What a key of an account has signed that was accepted: the number of the entry, and the digest
/// of the message.
#[derive(Clone, Copy, Debug, PartialEq, Eq)]
pub struct UsedKey {
    pub at: u64,
    pub message: Id,
}

impl UsedKey {
    ghost use Rattle.std.specs.Prelude.{◌≡◌};
    ghost use Rattle.ledger_rows.specs.RowValues.{used_in};

    fn in_bytes(bytes: &[u8]) -> Option<UsedKey>
        ensures { result ≡ used_in bytes.now }
    {
        if bytes.len() != 40 {
            return None;
        }
        Some(UsedKey {
            at: u64_at(bytes, 0),
            message: id_at(bytes, 8),
        })
    }
}

impl RowValue for UsedKey {
    ghost use Rattle.ledger_rows.specs.RowValues.{used_in};

    ghost value_of = { used_in };

    fn from_bytes(_alloc: Global, bytes: &[u8]) -> Result<Option<UsedKey>, NoMemory> {
        Ok(UsedKey::in_bytes(bytes))
    }
}
