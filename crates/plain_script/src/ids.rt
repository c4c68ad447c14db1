//! The ids of plain parties and deals.

ghost use Rattle.std.specs.Prelude.{◌≡◌, IfOk, map};
ghost use Rattle.plain_script.specs.Ids.{plain_id};

use dh_base::{Id, Name, NoMemory};
use std::alloc::Global;

/// The id of a plain party or deal of this name.
pub fn plain_id(name: &Name) -> Id
    ensures { result ≡ plain_id name.now }
{
    let text = name.as_bytes();
    let mut bytes = [0; 32];
    bytes[0] = text.len() as u8;
    bytes[1..1 + text.len()].copy_from_slice(text);
    Id(bytes)
}

/// The ids of these names, in their order.
pub fn plain_ids(alloc: Global, names: &[Name]) -> Result<Vec<Id>, NoMemory>
    ensures { IfOk result (λ ids. ids.items ≡ map plain_id names.now) }
{
    let mut ids = Vec::new(alloc);
    for name in names {
        ids.push(plain_id(name))?;
    }
    Ok(ids)
}
