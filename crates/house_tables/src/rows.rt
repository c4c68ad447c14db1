//! What the rows of a ledger's keeper say.

ghost use Rattle.std.specs.Prelude.{◌≡◌, ◌<◌, IfOk};
ghost use Rattle.std.specs.List.{filter_map};
ghost use Rattle.house_tables.specs.Rows.{asset_key, free_with, free_read, hold_with, hold_read, deal_read};

use dh_base::{Id, Name, NoMemory, Outcome, take_id, take_name};
use keeper_core::Row;
use ledger_rows::{FreeAmount, Hold, Registration, RowValue};
use std::alloc::Global;

/// What an account can spend of an asset.
#[derive(Clone, Copy)]
pub struct FreeRow {
    pub account: Id,
    pub asset: Name,
    pub amount: u64,
}

/// What an account owns of an asset in a deal, by either outcome.
#[derive(Clone, Copy)]
pub struct HoldRow {
    pub deal: Id,
    pub account: Id,
    pub asset: Name,
    pub commit: u64,
    pub abort: u64,
}

/// A registered deal, and how it has ended.
#[derive(Clone, Copy)]
pub struct DealRow {
    pub deal: Id,
    pub settled: Option<Outcome>,
}

/// The account and the asset that stand at that place of a key.
fn asset_key(key: &[u8], at: u32) -> Option<(Id, Name)>
    requires { at < 64 }
    ensures { result ≡ asset_key key.now at }
{
    match take_id(key, at) {
        Err(_) => None,
        Ok(account) => match take_name(key, at + 32) {
            Err(_) => None,
            Ok(asset) => Some((account, asset)),
        },
    }
}

fn free_with(key: &[u8], free: Option<FreeAmount>) -> Option<FreeRow>
    ensures { result ≡ free_with key.now free }
{
    let free = free?;
    let (account, asset) = asset_key(key, 0)?;
    Some(FreeRow {
        account,
        asset,
        amount: free.amount,
    })
}

/// What a row of free amounts says.
fn free_read(alloc: Global, row: &Row) -> Result<Option<FreeRow>, NoMemory>
    ensures { IfOk result (λ read. read ≡ free_read row.now) }
{
    let free = FreeAmount::from_bytes(alloc, row.val.as_slice())?;
    Ok(free_with(row.key.as_slice(), free))
}

fn hold_with(key: &[u8], hold: Option<Hold>) -> Option<HoldRow>
    ensures { result ≡ hold_with key.now hold }
{
    let hold = hold?;
    let (account, asset) = asset_key(key, 32)?;
    match take_id(key, 0) {
        Err(_) => None,
        Ok(deal) => Some(HoldRow {
            deal,
            account,
            asset,
            commit: hold.commit,
            abort: hold.abort,
        }),
    }
}

/// What a row of holds says.
fn hold_read(alloc: Global, row: &Row) -> Result<Option<HoldRow>, NoMemory>
    ensures { IfOk result (λ read. read ≡ hold_read row.now) }
{
    let hold = Hold::from_bytes(alloc, row.val.as_slice())?;
    Ok(hold_with(row.key.as_slice(), hold))
}

/// What a row of deals says.
fn deal_read(alloc: Global, row: &Row) -> Result<Option<DealRow>, NoMemory>
    ensures { IfOk result (λ read. read ≡ deal_read row.now) }
{
    match Registration::from_bytes(alloc, row.val.as_slice())? {
        None => Ok(None),
        Some(registration) => match take_id(row.key.as_slice(), 0) {
            Err(_) => Ok(None),
            Ok(deal) => Ok(Some(DealRow {
                deal,
                settled: registration.settled,
            })),
        },
    }
}

/// The rows of free amounts.
pub(crate) fn free_rows(alloc: Global, rows: &[Row]) -> Result<Vec<FreeRow>, NoMemory>
    ensures { IfOk result (λ free. free.items ≡ filter_map free_read rows.now) }
{
    let mut free = Vec::new(alloc);
    for row in rows {
        if let Some(read) = free_read(alloc, row)? {
            free.push(read)?;
        }
    }
    Ok(free)
}

/// The rows of holds.
pub(crate) fn hold_rows(alloc: Global, rows: &[Row]) -> Result<Vec<HoldRow>, NoMemory>
    ensures { IfOk result (λ holds. holds.items ≡ filter_map hold_read rows.now) }
{
    let mut holds = Vec::new(alloc);
    for row in rows {
        if let Some(read) = hold_read(alloc, row)? {
            holds.push(read)?;
        }
    }
    Ok(holds)
}

/// The rows of deals.
pub(crate) fn deal_rows(alloc: Global, rows: &[Row]) -> Result<Vec<DealRow>, NoMemory>
    ensures { IfOk result (λ deals. deals.items ≡ filter_map deal_read rows.now) }
{
    let mut deals = Vec::new(alloc);
    for row in rows {
        if let Some(read) = deal_read(alloc, row)? {
            deals.push(read)?;
        }
    }
    Ok(deals)
}
