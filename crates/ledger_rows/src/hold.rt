//! What a party owns in a deal.

use crate::fields::u64_at;
use crate::row_value::RowValue;
use dh_base::NoMemory;
use std::alloc::Global;

/// What a party owns of an asset in a deal, if the deal commits and if it aborts. One of the two is
/// above 0.
#[derive(Clone, Copy, Debug, PartialEq, Eq)]
pub struct Hold {
    pub commit: u64,
    pub abort: u64,
}

impl Hold {
    ghost use Rattle.std.specs.Prelude.{◌≡◌, ◌==◌, ◌&&◌};
    ghost use Rattle.ledger_rows.specs.RowValues.{hold_in};

    /// Whether it has no row.
    pub fn is_nothing(&self) -> bool
        ensures { result ≡ ((self.now.commit == 0) && (self.now.abort == 0)) }
    {
        self.commit == 0 && self.abort == 0
    }

    pub(crate) fn in_bytes(bytes: &[u8]) -> Option<Hold>
        ensures { result ≡ hold_in bytes.now }
    {
        if bytes.len() != 16 {
            return None;
        }
        let commit = u64_at(bytes, 0);
        let abort = u64_at(bytes, 8);
        if commit == 0 && abort == 0 {
            return None;
        }
        Some(Hold { commit, abort })
    }
}

impl RowValue for Hold {
    ghost use Rattle.ledger_rows.specs.RowValues.{hold_in};

    ghost value_of = { hold_in };

    fn from_bytes(_alloc: Global, bytes: &[u8]) -> Result<Option<Hold>, NoMemory> {
        Ok(Hold::in_bytes(bytes))
    }
}
