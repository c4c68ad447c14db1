//! Laws of lines, words and numbers: one spelling each.

ghost use Rattle.std.specs.Prelude.{◌≡◌, ◌≢◌, ◌^◌, ◌<◌, ℕ, List, [], map, Some, IsTrue};
ghost use Rattle.std.specs.List.{AllByRecursion};
ghost use Rattle.std.specs.Fmt.{decimal};
ghost use Rattle.dh_base.specs.Names.{is_name};
ghost use Rattle.line_text.specs.Bytes.{lacks};
ghost use Rattle.line_text.specs.Lines.{AreLines, Line, lines_of, ended_line, joined_lines, spelled_lines};
ghost use Rattle.line_text.specs.Words.{words_of, spelled_words};
ghost use Rattle.line_text.specs.Numbers.{number_of};

/// The lines of a text of lines are those lines, where no line feed stands in them.
pub fn lines_of_spelled_lines()
    ensures { (lines : List (List ℕ)) → AllByRecursion (λ line. IsTrue (lacks 10 line)) lines →
        lines_of (spelled_lines lines) ≡ map ended_line lines }
{}

/// The lines of a text, joined, are the text, and no other lines are.
pub fn one_list_of_lines()
    ensures lines { (text : List ℕ) → AreLines (lines_of text) }
    ensures joined { (text : List ℕ) → joined_lines (lines_of text) ≡ text }
    ensures only { (lines : List Line) → AreLines lines → lines_of (joined_lines lines) ≡ lines }
{}

/// The words of a line of words are those words, where no space stands in them. There is one at
/// least.
pub fn words_of_spelled_words()
    ensures { (words : List (List ℕ)) → words ≢ []
        → AllByRecursion (λ word. IsTrue (lacks 32 word)) words →
        words_of (spelled_words words) ≡ words }
{}

/// The words of a line, spelled, are the line. There is one at least, and no space stands in them.
pub fn spelled_words_of()
    ensures some { (line : List ℕ) → words_of line ≢ [] }
    ensures words { (line : List ℕ)
        → AllByRecursion (λ word. IsTrue (lacks 32 word)) (words_of line) }
    ensures spelled { (line : List ℕ) → spelled_words (words_of line) ≡ line }
{}

/// A number in decimal is read as that number.
pub fn number_of_decimal()
    ensures { (n : ℕ) → n < 2 ^ 64 → number_of (decimal n) ≡ Some n }
{}

/// A word that is read as a number is that number in decimal.
pub fn decimal_of_number()
    ensures { (word : List ℕ) (n : ℕ) → number_of word ≡ Some n → n < 2 ^ 64 → word ≡ decimal n }
{}

/// In names and in decimals stands neither a space nor a line feed.
pub fn plain_words()
    ensures name { (word : List ℕ) → IsTrue (is_name word)
        → IsTrue (lacks 32 word) × IsTrue (lacks 10 word) }
    ensures decimal { (n : ℕ) → n < 2 ^ 64
        → IsTrue (lacks 32 (decimal n)) × IsTrue (lacks 10 (decimal n)) }
{}

/// In a line of words in which no line feed stands there stands none.
pub fn plain_lines()
    ensures { (words : List (List ℕ)) → AllByRecursion (λ word. IsTrue (lacks 10 word)) words →
        IsTrue (lacks 10 (spelled_words words)) }
{}
