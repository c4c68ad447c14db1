//! The rules of scripts, by their numbers and names.

/// A rule of scripts.
#[derive(Clone, Copy, Debug, PartialEq, Eq)]
pub enum ScriptRule {
    /// The line is no line that may stand there.
    BadLine,
    /// It binds a name again.
    NameTwice,
    /// It uses a name that nothing of that kind has.
    UnknownName,
    /// No deal has the text of a declared deal.
    BadDeal,
    /// Seats make no good set.
    BadSet,
    /// A set has more deviant seats than it tolerates.
    TooManyDeviants,
    /// An opening row isn't good.
    BadOpening,
    /// A node is needed, and it names none.
    NotANode,
    /// A limit of scripts is passed.
    TooMany,
    /// A number exceeds what it counts, or its field.
    OutOfRange,
    /// The input has more bytes than a script may have.
    TooLarge,
    /// The line is of a form that isn't built.
    NotBuilt,
}

impl ScriptRule {
    ghost use Rattle.std.specs.Prelude.{◌≡◌};
    ghost use Rattle.script_lines.specs.RuleNames.{rule_number, rule_name};

    /// The number, by which reports name the rule. It never changes.
    pub fn number(self) -> u16
        ensures { result ≡ rule_number self }
    {
        match self {
            ScriptRule::BadLine => 1,
            ScriptRule::NameTwice => 2,
            ScriptRule::UnknownName => 3,
            ScriptRule::BadDeal => 4,
            ScriptRule::BadSet => 5,
            ScriptRule::TooManyDeviants => 6,
            ScriptRule::BadOpening => 7,
            ScriptRule::NotANode => 8,
            ScriptRule::TooMany => 9,
            ScriptRule::OutOfRange => 10,
            ScriptRule::TooLarge => 11,
            ScriptRule::NotBuilt => 12,
        }
    }

    /// The name.
    pub fn name(self) -> &'static str
        ensures { result.now ≡ rule_name self }
    {
        match self {
            ScriptRule::BadLine => "BadLine",
            ScriptRule::NameTwice => "NameTwice",
            ScriptRule::UnknownName => "UnknownName",
            ScriptRule::BadDeal => "BadDeal",
            ScriptRule::BadSet => "BadSet",
            ScriptRule::TooManyDeviants => "TooManyDeviants",
            ScriptRule::BadOpening => "BadOpening",
            ScriptRule::NotANode => "NotANode",
            ScriptRule::TooMany => "TooMany",
            ScriptRule::OutOfRange => "OutOfRange",
            ScriptRule::TooLarge => "TooLarge",
            ScriptRule::NotBuilt => "NotBuilt",
        }
    }
}
