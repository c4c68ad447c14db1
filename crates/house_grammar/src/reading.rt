//! Reading what a line says.

ghost use Rattle.std.specs.Prelude.{◌≡◌, IfOk};
ghost use Rattle.house_grammar.specs.Said.{bare_line, line_said};

use crate::house_line::HouseLine;
use crate::said_building::building_after;
use crate::said_declaration::declaration_after;
use crate::said_event::event_after;
use dh_base::NoMemory;
use house_words::{building_keyword, declaration_keyword, event_keyword};
use line_text::Words;
use std::alloc::Global;

/// The line of one word.
fn bare_line(word: &[u8], words: Words<'_>) -> Option<HouseLine>
    ensures { result ≡ bare_line word.now words.entry }
{
    if !words.is_done() {
        return None;
    }
    if word == b"house".as_slice() {
        return Some(HouseLine::House);
    }
    if word == b"begin".as_slice() {
        return Some(HouseLine::Begin);
    }
    None
}

/// What the line says, or None where it has no line's form.
#[tactic(auto, unfolding(crate::specs::Said::line_of_words))]
pub fn house_line(alloc: Global, line: &[u8]) -> Result<Option<HouseLine>, NoMemory>
    ensures { IfOk result (λ said. said ≡ line_said line.now) }
{
    let mut words = Words::new(line);
    let Some(word) = words.next_word() else {
        return Ok(None);
    };
    if let Some(keyword) = declaration_keyword(word) {
        return Ok(declaration_after(alloc, keyword, words)?.map(HouseLine::Declare));
    }
    if let Some(keyword) = building_keyword(word) {
        return Ok(building_after(alloc, keyword, words)?.map(HouseLine::Build));
    }
    if let Some(keyword) = event_keyword(word) {
        return Ok(event_after(alloc, keyword, words)?.map(HouseLine::Happen));
    }
    Ok(bare_line(word, words))
}
