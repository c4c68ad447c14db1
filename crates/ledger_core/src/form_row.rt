//! The row that says what a keeper's tables are.

ghost use Rattle.std.specs.Prelude.{◌≡◌};
ghost use Rattle.ledger_core.specs.FormRows.{form_in};

use dh_base::{Id, NoMemory};
use ledger_rows::RowValue;
use std::alloc::Global;

/// The table of that row.
pub(crate) const FORM_TAB: u8 = 1;

/// The key of that row.
pub(crate) const FORM_KEY: &[u8; 1] = b"m";

/// The tables are a ledger's, of the opening with that identity.
#[derive(Clone, Copy, Debug, PartialEq, Eq)]
pub(crate) struct FormRow {
    pub(crate) identity: Id,
}

impl FormRow {
    fn in_bytes(bytes: &[u8]) -> Option<FormRow>
        ensures { result ≡ form_in bytes.now }
    {
        if bytes.len() != 34 || bytes[0] != 1 || bytes[1] != 1 {
            return None;
        }
        let mut identity = [0; 32];
        identity.copy_from_slice(&bytes[2..]);
        Some(FormRow {
            identity: Id(identity),
        })
    }
}

impl RowValue for FormRow {
    ghost use Rattle.ledger_core.specs.FormRows.{form_in};

    ghost value_of = { form_in };

    fn from_bytes(_alloc: Global, bytes: &[u8]) -> Result<Option<FormRow>, NoMemory> {
        Ok(FormRow::in_bytes(bytes))
    }
}
