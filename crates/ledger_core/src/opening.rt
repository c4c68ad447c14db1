//! Openings of ledgers.

ghost use Rattle.std.specs.Prelude.{◌≡◌, ◌++◌, IfOk, OnOk};
ghost use Rattle.std.specs.List.{flat_map};
ghost use Rattle.ledger_rows.specs.Entries.{digest_of};
ghost use Rattle.ledger_core.specs.Openings.{book_rows, open_row_text, opening_text};

use cert_core::{Set, write_set};
use dh_base::{Id, List, Name, NoMemory, digest, put_id, put_name, put_u64};
use std::alloc::Global;

/// What an account can spend of an asset when a ledger begins.
#[derive(Clone, Copy)]
pub struct OpenRow {
    pub asset: Name,
    pub account: Id,
    pub amount: u64,
}

/// Which ledger is opened: its name, the first validators of its house, whose id the house has, and
/// what accounts can spend when it begins.
#[derive(Drop)]
pub struct Opening {
    pub name: Name,
    pub genesis: Set,
    pub rows: List<OpenRow>,
}

/// The rows, as a book opens with them.
pub(crate) fn book_rows(alloc: Global, rows: &[OpenRow]) -> Result<Vec<(Id, Name, u64)>, NoMemory>
    ensures { IfOk result (λ made. made.items ≡ book_rows rows.now) }
{
    let mut made = Vec::new(alloc);
    for row in rows {
        made.push((row.account, row.asset, row.amount))?;
    }
    Ok(made)
}

fn put_rows(out: &mut Vec<u8>, rows: &[OpenRow]) -> Result<(), NoMemory>
    ensures { OnOk result (out.new.items ≡ out.old.items ++ flat_map open_row_text rows.now) }
{
    for row in rows {
        put_name(out, &row.asset)?;
        put_id(out, &row.account)?;
        put_u64(out, row.amount)?;
    }
    Ok(())
}

impl Opening {
    /// The identity, by which tables name the opening.
    pub fn identity(&self, alloc: Global) -> Result<Id, NoMemory>
        ensures { IfOk result (λ id. id ≡ digest_of (opening_text self.now)) }
    {
        let mut text = Vec::new(alloc);
        put_name(&mut text, &self.name)?;
        text.extend_from_slice(write_set(alloc, &self.genesis)?.as_slice())?;
        put_rows(&mut text, self.rows.as_slice())?;
        Ok(digest(&text))
    }
}
