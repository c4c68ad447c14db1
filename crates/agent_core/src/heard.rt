//! What an agent answers to statements.

/// What becomes of a statement.
#[derive(Clone, Copy, Debug, PartialEq, Eq)]
pub enum Heard {
    Kept,
    /// One behind `kept` entries is kept, which are more.
    Older { kept: u64 },
}
