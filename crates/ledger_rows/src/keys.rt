//! The keys of a ledger's rows.

ghost use Rattle.std.specs.Prelude.{◌≡◌, IfOk};
ghost use Rattle.ledger_rows.specs.RowKeys.{free_key, hold_key, moves_key, used_key, entry_key};

use dh_base::{Id, Name, NoMemory, put_id, put_name, put_u32};
use std::alloc::Global;

/// The key of what an account can spend of an asset.
pub fn free_key(alloc: Global, account: &Id, asset: &Name) -> Result<Vec<u8>, NoMemory>
    ensures { IfOk result (λ key. key.items ≡ free_key account.now asset.now) }
{
    let mut key = Vec::new(alloc);
    put_id(&mut key, account)?;
    put_name(&mut key, asset)?;
    Ok(key)
}

/// The key of what an account owns of an asset in a deal.
pub fn hold_key(alloc: Global, deal: &Id, account: &Id, asset: &Name) -> Result<Vec<u8>, NoMemory>
    ensures { IfOk result (λ key. key.items ≡ hold_key deal.now account.now asset.now) }
{
    let mut key = Vec::new(alloc);
    put_id(&mut key, deal)?;
    put_id(&mut key, account)?;
    put_name(&mut key, asset)?;
    Ok(key)
}

/// The key of the number of an account's transfers in a deal.
pub fn moves_key(alloc: Global, deal: &Id, account: &Id) -> Result<Vec<u8>, NoMemory>
    ensures { IfOk result (λ key. key.items ≡ moves_key deal.now account.now) }
{
    let mut key = Vec::new(alloc);
    put_id(&mut key, deal)?;
    put_id(&mut key, account)?;
    Ok(key)
}

/// The key of the act that a key of an account has signed.
pub fn used_key(alloc: Global, account: &Id, q: u32) -> Result<Vec<u8>, NoMemory>
    ensures { IfOk result (λ key. key.items ≡ used_key account.now q) }
{
    let mut key = Vec::new(alloc);
    put_id(&mut key, account)?;
    put_u32(&mut key, q)?;
    Ok(key)
}

/// The key of the entry of a number.
pub fn entry_key(number: u64) -> [u8; 8]
    ensures { result ≡ entry_key number }
{
    number.to_be_bytes()
}
