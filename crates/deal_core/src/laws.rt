//! Laws of deals and their texts.

ghost use Rattle.std.specs.Prelude.{◌≡◌, ◌↔◌, ◌+◌, ℕ, List, Some, Result, Ok, Err};
ghost use Rattle.line_text.specs.Lines.{lines_of};
ghost use Rattle.deal_core.specs.Drafts.{Draft, no_lines, reading_of};
ghost use Rattle.deal_core.specs.Positions.{IsFirstFault, IsFaultOfLines, line_told};
ghost use Rattle.deal_core.specs.declared.deal_fault.DealFault.{DealFault};
ghost use Rattle.deal_core.specs.Deals.{DealTold};
ghost use Rattle.deal_core.specs.DealText.{deal_text, IsSpellable};
ghost use Rattle.deal_core.specs.Kept.{IsDeal};
ghost use Rattle.deal_core.specs.Reading.{IsWholeText, draft_of, Answers, AreOneAnswer};

/// Reading finds exactly the fault of the first line that has one, or of the line that is lacking
/// behind the last. The fault of a line tells its number, which counts from 1.
pub fn first_line()
    ensures fault { (text : List ℕ) (fault : DealFault)
        → (reading_of text ≡ Err fault) ↔ IsFaultOfLines text fault }
    ensures number { (text : List ℕ) (k : ℕ) (fault : DealFault)
        → IsFirstFault no_lines (lines_of text) k fault →
        line_told fault ≡ Some (k + 1) }
{}

/// A text whose lines have no fault is that of a deal: its name, its house, two parties at least,
/// and its steps.
pub fn found()
    ensures { (text : List ℕ) (draft : Draft) → reading_of text ≡ Ok draft
        → IsWholeText draft text }
{}

/// The text of a deal is read as that deal's lines, and none of them has a fault.
pub fn only()
    ensures { (deal : DealTold) → IsDeal deal → IsSpellable deal
        → reading_of (deal_text deal) ≡ Ok (draft_of deal) }
{}

/// A text has one answer, unless memory runs out.
pub fn one_answer()
    ensures { (text : List ℕ) (one other : Result DealTold DealFault) → Answers text one
        → Answers text other →
        AreOneAnswer one other }
{}
