//! Amounts by assets, as the rows of a table list them.

ghost use Rattle.std.specs.Prelude.{◌≡◌, ◌++◌, ℕ, List, None, Some, MatchOption, IfOk, IsTrue, if◌then◌else◌};
ghost use Rattle.std.specs.Str.{bytes_eq};
ghost use Rattle.std.specs.BTreeMap.{get};
ghost use Rattle.std.specs.Ordering.{nat_cmp};
ghost use Rattle.std.specs.Cmp.Lexicographic.{slice_cmp};
ghost use Rattle.dh_base.specs.Fields.{name_field};
ghost use Rattle.dh_base.specs.Names.{is_name};
ghost use Rattle.ledger_rows.specs.Scanning.{amount_in, listed_by, listed, AreAmounts};

use crate::fields::u64_at;
use crate::row_form::name_in;
use act_text::HeldRow;
use dh_base::{List, Name, NoMemory};
use keeper_core::Row;
use std::alloc::Global;
use std::collections::BTreeMap;

/// The number that a row begins with.
fn amount_in(val: &[u8]) -> u64
    ensures { result ≡ amount_in val.now }
{
    if val.len() < 8 { 0 } else { u64_at(val, 0) }
}

/// The asset that stands in a key behind that front.
fn asset_behind(key: &[u8], front: &[u8]) -> Option<Name>
    ensures { MatchOption result
        ((asset : List ℕ) → IsTrue (is_name asset) → key.now ≡ front.now ++ name_field asset → ⊥)
        (λ asset. IsTrue (is_name asset) × (key.now ≡ front.now ++ name_field asset)) }
{
    name_in(key.strip_prefix(front)?)
}

/// What the row has of an asset that stands in its key behind that front.
fn held_in(row: &Row, front: &[u8]) -> Option<HeldRow>
    ensures { MatchOption result
        ((asset : List ℕ) → listed_by front.now row.now asset ≡ None)
        (λ held. (other : List ℕ) → listed_by front.now row.now other
        ≡ (if bytes_eq held.asset other then Some held.amount else None)) }
{
    let asset = asset_behind(row.key.as_slice(), front)?;
    let amount = amount_in(row.val.as_slice());
    if amount == 0 {
        return None;
    }
    Some(HeldRow { asset, amount })
}

/// What the rows have of each asset, in the order of the assets.
fn amounts_of(alloc: Global, rows: &[Row], front: &[u8]) -> Result<BTreeMap<Name, u64>, NoMemory>
    ensures { IfOk result (λ amounts. (asset : List ℕ)
        → get (slice_cmp nat_cmp) amounts asset ≡ listed front.now rows.now asset) }
{
    let mut amounts = BTreeMap::new(alloc);
    for row in rows {
        match held_in(row, front) {
            Some(held) => {
                amounts.insert(held.asset, held.amount)?;
            }
            None => {}
        }
    }
    Ok(amounts)
}

/// The amounts that the rows have of assets in their keys behind that front.
pub(crate) fn held_rows(
    alloc: Global,
    rows: &[Row],
    front: &[u8],
) -> Result<List<HeldRow>, NoMemory>
    ensures { IfOk result (AreAmounts (listed front.now rows.now)) }
{
    let amounts = amounts_of(alloc, rows, front)?;
    let mut held = Vec::new(alloc);
    for (asset, amount) in &amounts {
        held.push(HeldRow {
            asset: *asset,
            amount: *amount,
        })?;
    }
    Ok(List::from_vec(held))
}
