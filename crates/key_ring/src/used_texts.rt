//! The rows of a keeper in which the texts stand that keys have signed.

ghost use Rattle.std.specs.Prelude.{◌≡◌, ◌≤◌, ◌<◌, ◌↔◌, length, IfOk, IfErr, IsTrue};
ghost use Rattle.std.specs.Int.{w32, to_be_bytes};
ghost use Rattle.keeper_core.specs.NumberedRows.{numbered_rows};
ghost use Rattle.key_ring.specs.UsedTexts.{IsRowFault};

use dh_base::List;
use keeper_core::{Row, StoreFault};
use std::alloc::Global;

/// The table of signed texts.
pub(crate) const USED_TAB: u8 = 8;

/// The key of the row for the text that a key has signed.
pub(crate) fn key_bytes(q: u32) -> [u8; 4]
    ensures { result ≡ to_be_bytes w32 q }
{
    q.to_be_bytes()
}

/// Whether the key is that of the row behind so many texts, in a ring of so many keys.
fn is_next(key: &[u8], texts: usize, size: u16) -> bool
    ensures { IsTrue result ↔ ((texts < size) × (key.now ≡ to_be_bytes w32 texts)) }
{
    texts < size as usize && key == key_bytes(texts as u32).as_slice()
}

/// The texts of the rows, where each row is that of the next key of so many; or the first row that
/// is not.
pub(crate) fn read_texts(
    alloc: Global,
    rows: List<Row>,
    size: u16,
) -> Result<Vec<List<u8>>, StoreFault>
    ensures rows { IfOk result (λ texts. rows ≡ numbered_rows w32 0 texts.items) }
    ensures few { IfOk result (λ texts. length texts.items ≤ size) }
    ensures fault { IfErr result (IsRowFault size rows) }
{
    let mut texts = Vec::new(alloc);
    for row in rows.into_vec() {
        let Row { key, val } = row;
        if !is_next(key.as_slice(), texts.len(), size) {
            return Err(StoreFault::bad_row(USED_TAB, key.as_slice()));
        }
        texts.push(val)?;
    }
    Ok(texts)
}
