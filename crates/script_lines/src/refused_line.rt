//! How a refused script is told.

use crate::rule::ScriptRule;
use std::fmt;

/// A line that breaks a rule. Lines count from 1; line 0 is the script as a whole.
#[derive(Clone, Copy, Debug, PartialEq, Eq)]
pub struct RefusedLine {
    pub line: u32,
    pub rule: ScriptRule,
}

impl fmt::Display for RefusedLine {
    ghost use Rattle.std.specs.Prelude.{Some};
    ghost use Rattle.script_lines.specs.RuleNames.{refused_text};

    ghost output = { λ refused. Some (refused_text refused.line refused.rule) };

    fn fmt<W: fmt::Write>(&self, f: &mut fmt::Formatter<W>) -> fmt::Result {
        let line = self.line;
        let number = self.rule.number();
        let name = self.rule.name();
        write!(f, "line {line} rule {number} {name}")
    }
}
