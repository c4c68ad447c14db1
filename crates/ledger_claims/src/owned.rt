//! What is owned in a deal, by the rows of the table of holds.

ghost use Rattle.std.specs.Prelude.{◌≡◌, ◌≤◌, length, None, is_some, IfOk, IfErr, MatchResult};
ghost use Rattle.keeper_core.specs.Leaving.{of_store_fault};
ghost use Rattle.keeper_core.specs.StoreFaults.{HasCause};
ghost use Rattle.ledger_rows.specs.Asking.{Asks};
ghost use Rattle.ledger_rows.specs.RowKeys.{hold_tab, first_id, name_in};
ghost use Rattle.ledger_rows.specs.RowReading.{is_formed, LacksForm};
ghost use Rattle.ledger_rows.specs.Scanning.{rows_in, first_unformed, rows_refusal, scan_refusal};
ghost use Rattle.ledger_claims.specs.Payees.{IsRowFault, key_parts, owned_in, owned_of, owned_at};

use dh_base::{Id, List, Name, NoMemory};
use escrow_book::HoldRow;
use keeper_core::{Keeper, Row, StoreFault};
use ledger_rows::{HOLD_TAB, Hold, RowValue};
use std::alloc::Global;

/// The id that the bytes begin with.
fn first_id(bytes: &[u8]) -> Id
    requires { 32 ≤ length bytes.now }
    ensures { result ≡ first_id bytes.now }
{
    let mut id = [0; 32];
    id.copy_from_slice(&bytes[..32]);
    Id(id)
}

/// The name that the bytes are, behind the number of its characters.
fn name_in(field: &[u8]) -> Option<Name>
    ensures { result ≡ name_in field.now }
{
    let (len, text) = field.split_first()?;
    if usize::from(*len) != text.len() {
        return None;
    }
    match Name::from_bytes(text) {
        Ok(name) => Some(name),
        Err(_) => None,
    }
}

/// The deal, the account and the asset that a key spells, if it spells them.
fn key_parts(key: &[u8]) -> Option<(Id, (Id, Name))>
    ensures { result ≡ key_parts key.now }
{
    if key.len() <= 64 {
        return None;
    }
    let asset = name_in(&key[64..])?;
    Some((first_id(key), (first_id(&key[32..]), asset)))
}

/// What a row tells, if it has its form.
fn owned_in(alloc: Global, row: &Row) -> Result<Option<HoldRow>, NoMemory>
    ensures { IfOk result (λ hold. (hold ≡ owned_in row.now)
        × (is_some hold ≡ is_formed hold_tab row.now)) }
{
    let Some((deal, (account, asset))) = key_parts(row.key.as_slice()) else {
        return Ok(None);
    };
    let Some(hold) = Hold::from_bytes(alloc, row.val.as_slice())? else {
        return Ok(None);
    };
    Ok(Some(HoldRow {
        deal,
        account,
        asset,
        commit: hold.commit,
        abort: hold.abort,
    }))
}

/// What the rows tell of the deal.
fn owned_among(alloc: Global, rows: &[Row], deal: &Id) -> Result<List<HoldRow>, StoreFault>
    ensures { MatchResult result
        (λ owned. (first_unformed hold_tab rows.now ≡ None) × (owned ≡ owned_of deal.now rows.now))
        (IsRowFault (rows_refusal hold_tab rows.now)) }
{
    let mut owned = Vec::new(alloc);
    for row in rows {
        let Some(hold) = owned_in(alloc, row)? else {
            return Err(StoreFault::bad_row(HOLD_TAB, row.key.as_slice()));
        };
        if hold.deal == *deal {
            owned.push(hold)?;
        }
    }
    Ok(List::from_vec(owned))
}

/// What is owned in the deal.
pub(crate) fn scan_owned<K: Keeper>(
    alloc: Global,
    keeper: &mut K,
    deal: &Id,
) -> Result<List<HoldRow>, StoreFault>
    ensures asks { Asks of_store_fault (rows_in hold_tab) (scan_refusal hold_tab)
        (λ tables owned. owned ≡ owned_at deal.now tables) result
        (K.known keeper.old) (K.known keeper.new) }
    ensures cause { IfErr result (HasCause LacksForm (K.known keeper.new).tables) }
{
    let rows = keeper.scan(HOLD_TAB)?;
    owned_among(alloc, rows.as_slice(), deal)
}
