//! Limits that more than one crate keeps to.

/// The most parties of a deal.
pub const MOST_PARTIES: usize = 16;
