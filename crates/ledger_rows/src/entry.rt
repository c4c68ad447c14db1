//! Entries of a ledger's history.

use crate::fields::{id_at, settled_in, u32_at};
use crate::row_value::RowValue;
use dh_base::{Id, List, NoMemory, Outcome};
use std::alloc::Global;

/// An entry of a ledger's history.
#[derive(Debug, Drop)]
pub enum Entry {
    /// The message that a key of an account has signed was accepted as an act.
    Act {
        account: Id,
        q: u32,
        message: List<u8>,
    },
    /// A deal has ended so.
    Settlement {
        deal: Id,
        outcome: Outcome,
    },
}

impl Entry {
    ghost use Rattle.std.specs.Prelude.{◌≡◌, IfOk};
    ghost use Rattle.ledger_rows.specs.RowValues.{act_in, settlement_in};

    fn act_in(alloc: Global, bytes: &[u8]) -> Result<Option<Entry>, NoMemory>
        ensures { IfOk result (λ entry. entry ≡ act_in bytes.now) }
    {
        if bytes.len() < 37 {
            return Ok(None);
        }
        let message = Vec::from_slice(alloc, &bytes[37..])?;
        Ok(Some(Entry::Act {
            account: id_at(bytes, 1),
            q: u32_at(bytes, 33),
            message: List::from_vec(message),
        }))
    }

    fn settlement_in(bytes: &[u8]) -> Option<Entry>
        ensures { result ≡ settlement_in bytes.now }
    {
        if bytes.len() != 34 {
            return None;
        }
        let outcome = settled_in(bytes[33])??;
        Some(Entry::Settlement {
            deal: id_at(bytes, 1),
            outcome,
        })
    }
}

impl RowValue for Entry {
    ghost use Rattle.ledger_rows.specs.RowValues.{entry_in};

    ghost value_of = { entry_in };

    fn from_bytes(alloc: Global, bytes: &[u8]) -> Result<Option<Entry>, NoMemory> {
        match bytes.first() {
            Some(1) => Entry::act_in(alloc, bytes),
            Some(2) => Ok(Entry::settlement_in(bytes)),
            _ => Ok(None),
        }
    }
}
