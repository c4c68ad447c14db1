//! The kinds of acts, which are numbered in their texts.

ghost use Rattle.std.specs.Prelude.{◌≡◌};
ghost use Rattle.act_text.specs.ActTexts.{kind_numbered};

use crate::office::Office;

/// The kind of an act. Its number stands behind the tag of the act's text.
#[derive(Clone, Copy, Debug, PartialEq, Eq)]
pub enum ActKind {
    Registration,
    Payment,
    Escrowing,
    Move,
    Start,
    Voting,
}

impl ActKind {
    /// The kind of that number, where the office takes such acts.
    pub fn numbered(office: Office, number: u8) -> Option<ActKind>
        ensures { result ≡ kind_numbered office number }
    {
        match (office, number) {
            (Office::Ledger, 1) => Some(ActKind::Registration),
            (Office::Ledger, 2) => Some(ActKind::Payment),
            (Office::Ledger, 3) => Some(ActKind::Escrowing),
            (Office::Ledger, 4) => Some(ActKind::Move),
            (Office::Log, 5) => Some(ActKind::Start),
            (Office::Log, 6) => Some(ActKind::Voting),
            _ => None,
        }
    }
}
