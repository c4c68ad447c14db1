//! Words at the end of a line.

ghost use Rattle.std.specs.Prelude.{◌≡◌, IfOk};
ghost use Rattle.script_lines.specs.WordLists.{names_only};

use dh_base::{List, Name, NoMemory};
use line_text::Words;
use std::alloc::Global;

/// The words that are left, where each is a name.
pub fn names(alloc: Global, mut words: Words<'_>) -> Result<Option<List<Name>>, NoMemory>
    ensures { IfOk result (λ names. names ≡ names_only words.entry) }
{
    let mut names = Vec::new(alloc);
    while !words.is_done() {
        match words.name() {
            Some(name) => names.push(name)?,
            None => return Ok(None),
        }
    }
    Ok(Some(List::from_vec(names)))
}
