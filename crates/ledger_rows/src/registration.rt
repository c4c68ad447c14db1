//! Registered deals.

use crate::fields::{id_at, settled_in};
use crate::row_value::RowValue;
use dh_base::{Id, List, NoMemory, Outcome};
use std::alloc::Global;

/// A registered deal: who registered it, how it has ended, and its text.
#[derive(Debug, Drop)]
pub struct Registration {
    pub registrant: Id,
    pub settled: Option<Outcome>,
    pub text: List<u8>,
}

impl Registration {
    ghost use Rattle.std.specs.Prelude.{◌≡◌};
    ghost use Rattle.std.specs.Option.{option_map};
    ghost use Rattle.ledger_rows.specs.OpenDeals.{is_open_by};
    ghost use Rattle.ledger_rows.specs.RowValues.{registration_in};
    ghost use Rattle.ledger_rows.specs.Scanning.{is_settled};

    /// Whether bytes, if they have the form, are a deal that has ended.
    pub(crate) fn is_settled_in(bytes: &[u8]) -> Option<bool>
        ensures { result ≡ option_map is_settled (registration_in bytes.now) }
    {
        if bytes.len() < 33 {
            return None;
        }
        let settled = settled_in(bytes[32])?;
        Some(settled.is_some())
    }

    /// Whether bytes, if they have the form, are a deal that the account has registered and that
    /// is not settled.
    pub(crate) fn is_open_in(bytes: &[u8], account: &Id) -> Option<bool>
        ensures { result ≡ option_map (is_open_by account.now) (registration_in bytes.now) }
    {
        if bytes.len() < 33 {
            return None;
        }
        let settled = settled_in(bytes[32])?;
        Some(*account == id_at(bytes, 0) && settled.is_none())
    }
}

impl RowValue for Registration {
    ghost use Rattle.ledger_rows.specs.RowValues.{registration_in};

    ghost value_of = { registration_in };

    fn from_bytes(alloc: Global, bytes: &[u8]) -> Result<Option<Registration>, NoMemory> {
        if bytes.len() < 33 {
            return Ok(None);
        }
        let Some(settled) = settled_in(bytes[32]) else {
            return Ok(None);
        };
        let text = Vec::from_slice(alloc, &bytes[33..])?;
        Ok(Some(Registration {
            registrant: id_at(bytes, 0),
            settled,
            text: List::from_vec(text),
        }))
    }
}
