//! Changes to a ledger's rows, added to a batch. What is zero has no row.

ghost use Rattle.std.specs.Prelude.{◌≡◌, ◌++◌, ◌∷◌, [], IfOk, OnOk};
ghost use Rattle.ledger_rows.specs.RowValues.{registration_text, hold_text, used_text, entry_text};
ghost use Rattle.ledger_rows.specs.RowChanges.{free_change, deal_change, hold_change, moves_change, used_change, entry_change};

use crate::entry::Entry;
use crate::fields::settled_byte;
use crate::hold::Hold;
use crate::keys::{entry_key, free_key, hold_key, moves_key, used_key};
use crate::registration::Registration;
use crate::tables::{DEAL_TAB, ENTRY_TAB, FREE_TAB, HOLD_TAB, MOVES_TAB, USED_TAB};
use crate::used_key::UsedKey;
use dh_base::{Id, Name, NoMemory, put_id, put_u8, put_u32, put_u64};
use keeper_core::Batch;
use std::alloc::Global;

/// What an account can spend of an asset.
pub fn put_free(
    alloc: Global,
    batch: &mut Batch,
    account: &Id,
    asset: &Name,
    amount: u64,
) -> Result<(), NoMemory>
    ensures { OnOk result (batch.new
        ≡ batch.old ++ free_change account.now asset.now amount ∷ []) }
{
    let key = free_key(alloc, account, asset)?;
    if amount == 0 {
        batch.del(FREE_TAB, &key)
    } else {
        batch.put(FREE_TAB, &key, &amount.to_be_bytes())
    }
}

fn registration_text(alloc: Global, registration: &Registration) -> Result<Vec<u8>, NoMemory>
    ensures { IfOk result (λ text. text.items ≡ registration_text registration.now) }
{
    let mut text = Vec::new(alloc);
    put_id(&mut text, &registration.registrant)?;
    put_u8(&mut text, settled_byte(registration.settled))?;
    text.extend_from_slice(registration.text.as_slice())?;
    Ok(text)
}

/// A registered deal.
pub fn put_registration(
    alloc: Global,
    batch: &mut Batch,
    deal: &Id,
    registration: &Registration,
) -> Result<(), NoMemory>
    ensures { OnOk result (batch.new
        ≡ batch.old ++ deal_change deal.now registration.now ∷ []) }
{
    let text = registration_text(alloc, registration)?;
    batch.put(DEAL_TAB, &deal.0, &text)
}

fn hold_text(alloc: Global, hold: &Hold) -> Result<Vec<u8>, NoMemory>
    ensures { IfOk result (λ text. text.items ≡ hold_text hold.now) }
{
    let mut text = Vec::new(alloc);
    put_u64(&mut text, hold.commit)?;
    put_u64(&mut text, hold.abort)?;
    Ok(text)
}

/// What a party owns of an asset in a deal.
pub fn put_hold(
    alloc: Global,
    batch: &mut Batch,
    deal: &Id,
    account: &Id,
    asset: &Name,
    hold: &Hold,
) -> Result<(), NoMemory>
    ensures { OnOk result (batch.new
        ≡ batch.old ++ hold_change deal.now account.now asset.now hold.now ∷ []) }
{
    let key = hold_key(alloc, deal, account, asset)?;
    let text = hold_text(alloc, hold)?;
    if hold.is_nothing() {
        batch.del(HOLD_TAB, &key)
    } else {
        batch.put(HOLD_TAB, &key, &text)
    }
}

/// How many transfers a party has made in a deal.
pub fn put_moves(
    alloc: Global,
    batch: &mut Batch,
    deal: &Id,
    account: &Id,
    count: u32,
) -> Result<(), NoMemory>
    ensures { OnOk result (batch.new
        ≡ batch.old ++ moves_change deal.now account.now count ∷ []) }
{
    let key = moves_key(alloc, deal, account)?;
    if count == 0 {
        batch.del(MOVES_TAB, &key)
    } else {
        batch.put(MOVES_TAB, &key, &count.to_be_bytes())
    }
}

fn used_text(alloc: Global, used: &UsedKey) -> Result<Vec<u8>, NoMemory>
    ensures { IfOk result (λ text. text.items ≡ used_text used.now) }
{
    let mut text = Vec::new(alloc);
    put_u64(&mut text, used.at)?;
    put_id(&mut text, &used.message)?;
    Ok(text)
}

/// What a key of an account has signed that is accepted.
pub fn put_used(
    alloc: Global,
    batch: &mut Batch,
    account: &Id,
    q: u32,
    used: &UsedKey,
) -> Result<(), NoMemory>
    ensures { OnOk result (batch.new ≡ batch.old ++ used_change account.now q used.now ∷ []) }
{
    let key = used_key(alloc, account, q)?;
    let text = used_text(alloc, used)?;
    batch.put(USED_TAB, &key, &text)
}

fn entry_text(alloc: Global, entry: &Entry) -> Result<Vec<u8>, NoMemory>
    ensures { IfOk result (λ text. text.items ≡ entry_text entry.now) }
{
    let mut text = Vec::new(alloc);
    match entry {
        Entry::Act {
            account,
            q,
            message,
        } => {
            put_u8(&mut text, 1)?;
            put_id(&mut text, account)?;
            put_u32(&mut text, *q)?;
            text.extend_from_slice(message.as_slice())?;
        }
        Entry::Settlement { deal, outcome } => {
            put_u8(&mut text, 2)?;
            put_id(&mut text, deal)?;
            put_u8(&mut text, settled_byte(Some(*outcome)))?;
        }
    }
    Ok(text)
}

/// The entry of a number.
pub fn put_entry(
    alloc: Global,
    batch: &mut Batch,
    number: u64,
    entry: &Entry,
) -> Result<(), NoMemory>
    ensures { OnOk result (batch.new ≡ batch.old ++ entry_change number entry.now ∷ []) }
{
    let text = entry_text(alloc, entry)?;
    batch.put(ENTRY_TAB, &entry_key(number), &text)
}
