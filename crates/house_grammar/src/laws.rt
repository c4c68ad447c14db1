//! Laws of lines: one spelling each, up to the numbers that exceed their field.

ghost use Rattle.std.specs.Prelude.{◌≡◌, ℕ, List, Some};
ghost use Rattle.house_grammar.specs.Said.{line_said};
ghost use Rattle.house_grammar.specs.Spelling.{SpellsLine};
ghost use Rattle.house_grammar.specs.declared.house_line.HouseLine.{HouseLine};

/// A text that spells a line says that line.
pub fn said_of_spelled()
    ensures { (line : HouseLine) (text : List ℕ) → SpellsLine line text
        → line_said text ≡ Some line }
{}

/// A text that says a line spells it.
pub fn spelled_of_said()
    ensures { (text : List ℕ) (line : HouseLine) → line_said text ≡ Some line
        → SpellsLine line text }
{}
