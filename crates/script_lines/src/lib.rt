//! What both kinds of script share: the rules by their numbers and names, the lines that are passed
//! over, the limits of lines and bytes, where a line stands, and which line is refused.
//!
//! - `rule`, `refused_line`, `halt`: why a script is refused, and how that is told.
//! - `line_rules`: passed-over lines, limits, and the lesser of two rules.
//! - `place`: where a line stands.
//! - `words`: the names at the end of a line.
#![tactic(auto)]

pub mod halt;
pub mod line_rules;
pub mod place;
pub mod refused_line;
pub mod rule;
pub mod words;

pub use halt::ScriptHalt;
pub use line_rules::{MOST_BYTES, lesser_rule, passes_over, within_limit};
pub use place::Place;
pub use refused_line::RefusedLine;
pub use rule::ScriptRule;
pub use words::names;

#[cfg(test)]
mod tests;
