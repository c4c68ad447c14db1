//! Names in ascending order, each once.

ghost use Rattle.std.specs.Prelude.{◌≡◌, IfOk};
ghost use Rattle.plain_script.specs.BoundNames.{in_order};

use dh_base::{Name, NoMemory};
use plain_script::declarations::with_names;
use std::alloc::Global;
use std::collections::BTreeSet;

/// The names of the set, in ascending order.
pub fn listed(alloc: Global, names: &BTreeSet<Name>) -> Result<Vec<Name>, NoMemory>
    ensures { IfOk result (λ list. list.items ≡ names.now.keys) }
{
    let list: Vec<Name> = names.iter().copied().collect(alloc)?;
    Ok(list)
}

/// The names in ascending order, each once.
pub fn in_order(alloc: Global, names: &[Name]) -> Result<Vec<Name>, NoMemory>
    ensures { IfOk result (λ list. list.items ≡ in_order names.now) }
{
    let once = with_names(BTreeSet::new(alloc), names)?;
    listed(alloc, &once)
}
