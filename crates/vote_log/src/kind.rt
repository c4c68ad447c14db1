//! What a record of a log does.

/// What a record does: it starts a deal, or is a party's vote on one.
#[derive(Clone, Copy, Debug, PartialEq, Eq)]
pub enum Kind {
    Start,
    Commit,
    Abort,
}
