//! The form of rows that a scan gives, by their keys and values.

ghost use Rattle.std.specs.Prelude.{◌≡◌, ◌⊎◌, Some, None, MatchResult};
ghost use Rattle.ledger_rows.specs.RowKeys.{free_tab, hold_tab, name_in, is_free_key, is_hold_key};
ghost use Rattle.ledger_rows.specs.RowReading.{is_formed};
ghost use Rattle.ledger_rows.specs.Scanning.{first_unformed, rows_refusal};

use crate::free_amount::FreeAmount;
use crate::hold::Hold;
use crate::tables::FREE_TAB;
use dh_base::Name;
use keeper_core::{Row, StoreFault};

/// The name that the bytes are, behind the number of its characters.
pub(crate) fn name_in(field: &[u8]) -> Option<Name>
    ensures { result ≡ name_in field.now }
{
    let (len, text) = field.split_first()?;
    if usize::from(*len) != text.len() {
        return None;
    }
    match Name::from_bytes(text) {
        Ok(name) => Some(name),
        Err(_) => None,
    }
}

/// Whether it spells an account and an asset.
fn is_free_key(key: &[u8]) -> bool
    ensures { result ≡ is_free_key key.now }
{
    32 < key.len() && name_in(&key[32..]).is_some()
}

/// Whether it spells a deal, an account and an asset.
fn is_hold_key(key: &[u8]) -> bool
    ensures { result ≡ is_hold_key key.now }
{
    32 < key.len() && is_free_key(&key[32..])
}

/// Whether the row has the form of its table's rows.
pub(crate) fn is_formed(tab: u8, row: &Row) -> bool
    requires { (tab ≡ free_tab) ⊎ (tab ≡ hold_tab) }
    ensures { result ≡ is_formed tab row.now }
{
    let key = row.key.as_slice();
    let val = row.val.as_slice();
    if tab == FREE_TAB {
        FreeAmount::in_bytes(val).is_some() && is_free_key(key)
    } else {
        Hold::in_bytes(val).is_some() && is_hold_key(key)
    }
}

/// Whether each of the rows has the form of its table's rows. The first that has not is named.
pub(crate) fn check_forms(tab: u8, rows: &[Row]) -> Result<(), StoreFault>
    requires { (tab ≡ free_tab) ⊎ (tab ≡ hold_tab) }
    ensures { MatchResult result (λ _. first_unformed tab rows.now ≡ None)
        (λ fault. rows_refusal tab rows.now ≡ Some fault) }
{
    for row in rows {
        if !is_formed(tab, row) {
            return Err(StoreFault::bad_row(tab, row.key.as_slice()));
        }
    }
    Ok(())
}
