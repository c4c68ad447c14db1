//! What an account can spend.

use crate::fields::u64_at;
use crate::row_value::RowValue;
use dh_base::NoMemory;
use std::alloc::Global;

/// What an account can spend of an asset: an amount above 0.
#[derive(Clone, Copy, Debug, PartialEq, Eq)]
pub struct FreeAmount {
    pub amount: u64,
}

impl FreeAmount {
    ghost use Rattle.std.specs.Prelude.{◌≡◌};
    ghost use Rattle.ledger_rows.specs.RowValues.{free_in};

    pub(crate) fn in_bytes(bytes: &[u8]) -> Option<FreeAmount>
        ensures { result ≡ free_in bytes.now }
    {
        if bytes.len() != 8 {
            return None;
        }
        let amount = u64_at(bytes, 0);
        if amount == 0 {
            return None;
        }
        Some(FreeAmount { amount })
    }
}

impl RowValue for FreeAmount {
    ghost use Rattle.ledger_rows.specs.RowValues.{free_in};

    ghost value_of = { free_in };

    fn from_bytes(_alloc: Global, bytes: &[u8]) -> Result<Option<FreeAmount>, NoMemory> {
        Ok(FreeAmount::in_bytes(bytes))
    }
}
