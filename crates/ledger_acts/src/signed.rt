//! Messages that keys of accounts have signed.

ghost use Rattle.std.specs.Prelude.{◌≡◌, ◌++◌, OnOk};
ghost use Rattle.ledger_rows.specs.ActChanges.{act_changes};

use dh_base::{Id, List, NoMemory, digest};
use keeper_core::Batch;
use ledger_rows::{Entry, UsedKey, put_entry, put_used};
use std::alloc::Global;

/// A message, the account that says it, and the number of the account's key that signed it.
#[derive(Clone, Copy)]
pub struct Signed<'a> {
    pub account: Id,
    pub q: u32,
    pub message: &'a [u8],
}

/// Adds that the key has signed the act, which is the entry of that number.
pub(crate) fn put_act(
    alloc: Global,
    batch: &mut Batch,
    number: u64,
    signed: &Signed<'_>,
) -> Result<(), NoMemory>
    ensures { OnOk result (batch.new ≡ batch.old
        ++ act_changes number signed.now.account signed.now.q signed.now.message.now) }
{
    let used = UsedKey {
        at: number,
        message: digest(signed.message),
    };
    put_used(alloc, batch, &signed.account, signed.q, &used)?;
    let entry = Entry::Act {
        account: signed.account,
        q: signed.q,
        message: List::from_vec(Vec::from_slice(alloc, signed.message)?),
    };
    put_entry(alloc, batch, number, &entry)
}
