//! The words with which lines begin.

/// The word with which a line of a plain script begins.
#[derive(Clone, Copy, Debug, PartialEq, Eq)]
pub enum Keyword {
    Plain,
    House,
    Begin,
    Ledger,
    Open,
    Deal,
    Register,
    Escrow,
    Transfer,
    Start,
    Commit,
    Abort,
    Claim,
}
