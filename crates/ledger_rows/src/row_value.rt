//! What a row of a keeper stands for, and reading it.

ghost use Rattle.std.specs.Prelude.{◌≡◌, ℕ, List, Option, IfOk};
ghost use Rattle.std.specs.Result.{IsErrOf};
ghost use Rattle.keeper_core.specs.Knowing.{FailsNext};
ghost use Rattle.ledger_rows.specs.RowReading.{ReadsRow};

use dh_base::NoMemory;
use keeper_core::{Keeper, StoreFault};
use std::alloc::Global;

/// What the values of a table's rows stand for.
pub trait RowValue: Sized {
    /// What bytes stand for, where they have the form of such values.
    ghost value_of: { List ℕ → Option Self };

    /// What the bytes stand for, if they have the form.
    fn from_bytes(alloc: Global, bytes: &[u8]) -> Result<Option<Self>, NoMemory>
        ensures { IfOk result (λ value. value ≡ value_of bytes.now) };
}

/// What stands at a key of a table: no row, or what its bytes stand for. A row without its form is
/// named.
pub fn read_row<K: Keeper, V: RowValue>(
    alloc: Global,
    keeper: &mut K,
    tab: u8,
    key: &[u8],
) -> Result<Option<V>, StoreFault>
    ensures reads { ReadsRow V.value_of tab key.now result (K.known keeper.old)
        (K.known keeper.new) }
    ensures fails { FailsNext (K.known keeper.old) → IsErrOf result StoreFault.Keeper }
{
    let Some(bytes) = keeper.get(tab, key)? else {
        return Ok(None);
    };
    match V::from_bytes(alloc, bytes.as_slice())? {
        Some(value) => Ok(Some(value)),
        None => Err(StoreFault::bad_row(tab, key)),
    }
}
