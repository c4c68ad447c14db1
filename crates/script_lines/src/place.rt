//! Where a line of a script stands.

/// Where a line of a script stands.
#[derive(Clone, Copy, Debug, PartialEq, Eq)]
pub enum Place {
    /// No line before it says anything.
    Head,
    /// Behind the head, before `begin`.
    Declarations,
    /// Behind `begin`.
    Events,
}
