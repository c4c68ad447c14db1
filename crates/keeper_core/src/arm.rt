//! The ways in which a keeper in memory fails or stops where a test wants it to.

/// What a keeper in memory is to do.
#[derive(Clone, Copy, Debug, PartialEq, Eq)]
pub enum Arm {
    /// The next call fails.
    FailNext,
    /// The next commit stops the keeper before it makes any change.
    StopBefore,
    /// The next commit stops the keeper after it has made all changes.
    StopAfter,
}
