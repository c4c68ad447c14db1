//! Rules that every script keeps, whatever its lines say.

ghost use Rattle.std.specs.Prelude.{◌≡◌};
ghost use Rattle.line_text.specs.Seen.{line_of};
ghost use Rattle.script_lines.specs.LineRules.{passes_over as over, lesser_rule, limit_rule, within_limit};

use crate::rule::ScriptRule;
use line_text::{TextLine, is_passed_over};

/// The most bytes of a script.
pub const MOST_BYTES: usize = 2097152;

/// The most lines of a script that may say something.
const MOST_LINES: u32 = 20000;

/// Whether scripts pass over the line: a line feed ends it, and it is empty or a comment.
pub fn passes_over(line: &TextLine<'_>) -> bool
    ensures { result ≡ over (line_of line.now) }
{
    line.ended && is_passed_over(line.text)
}

/// The limit of lines, where so many lines stand before one that says something.
fn limit_rule(before: u32) -> Option<ScriptRule>
    ensures { result ≡ limit_rule before }
{
    if before >= MOST_LINES {
        Some(ScriptRule::TooMany)
    } else {
        None
    }
}

/// Of two rules that a line may break, that of the lesser number.
pub fn lesser_rule(rule: Option<ScriptRule>, other: Option<ScriptRule>) -> Option<ScriptRule>
    ensures { result ≡ lesser_rule rule other }
{
    match (rule, other) {
        (Some(rule), Some(other)) if other.number() < rule.number() => Some(other),
        (Some(rule), _) => Some(rule),
        (None, other) => other,
    }
}

/// The rule that a line breaks which breaks this one by what it says, where so many lines stand
/// before it.
pub fn within_limit(before: u32, rule: Option<ScriptRule>) -> Option<ScriptRule>
    ensures { result ≡ within_limit before rule }
{
    lesser_rule(rule, limit_rule(before))
}
