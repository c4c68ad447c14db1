//! Opening rows: what accounts hold when a book starts.

ghost use Rattle.std.specs.Prelude.{◌≡◌, ◌-◌, ◌^◌, ◌++◌, ◌∷◌, [], min, nat_le};
ghost use Rattle.dh_base.specs.Amounts.{greatest_amount};
ghost use Rattle.escrow_book.specs.Opening.{row_amount, asset_amount, has_row, total_of, is_good_row, first_bad_row};

use dh_base::{GREATEST_AMOUNT, Id, Name};

/// The most opening rows of a ledger.
pub const MOST_ROWS: usize = 1024;

/// What the row gives the account of the asset.
pub(crate) fn row_amount(row: &(Id, Name, u64), account: &Id, asset: &Name) -> u64
    ensures { result ≡ row_amount account.now asset.now row.now }
{
    let (owner, kind, amount) = row;
    if account == owner && asset == kind {
        *amount
    } else {
        0
    }
}

/// Whether a row of that account and asset stands in the rows.
pub(crate) fn has_row(rows: &[(Id, Name, u64)], account: &Id, asset: &Name) -> bool
    ensures { result ≡ has_row rows.now account.now asset.now }
{
    rows.iter().any(|row| *account == row.0 && *asset == row.1)
}

fn asset_amount(row: &(Id, Name, u64), asset: &Name) -> u64
    ensures { result ≡ asset_amount asset.now row.now }
{
    let (_, kind, amount) = row;
    if asset == kind { *amount } else { 0 }
}

/// What there is of the asset in all. A sum that doesn't fit stays at the greatest number.
fn total_of(rows: &[(Id, Name, u64)], asset: &Name) -> u64
    ensures { result ≡ min (total_of rows.now asset.now) (2 ^ 64 - 1) }
{
    let mut sum: u64 = 0;
    for row in rows {
        sum = sum.saturating_add(asset_amount(row, asset));
    }
    sum
}

/// Whether the asset's total stays within the greatest amount with that row.
fn has_room(front: &[(Id, Name, u64)], row: &(Id, Name, u64)) -> bool
    ensures { result ≡ nat_le (total_of (front.now ++ row.now ∷ []) row.now.1) greatest_amount }
{
    let (_, asset, amount) = row;
    total_of(front, asset).saturating_add(*amount) <= GREATEST_AMOUNT
}

/// Whether the row is good behind those in front of it.
fn is_good_row(front: &[(Id, Name, u64)], row: &(Id, Name, u64)) -> bool
    ensures { result ≡ is_good_row front.now row.now }
{
    let (account, asset, amount) = row;
    front.len() < MOST_ROWS
        && *amount > 0
        && !has_row(front, account, asset)
        && has_room(front, row)
}

/// The place of the first opening row that isn't good behind those before it. A book starts with
/// rows of which each is good.
pub fn first_bad_row(rows: &[(Id, Name, u64)]) -> Option<u32>
    ensures { result ≡ first_bad_row rows.now }
{
    for place in 0..rows.len() {
        if !is_good_row(&rows[..place], &rows[place]) {
            return Some(place as u32);
        }
    }
    None
}
