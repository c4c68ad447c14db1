//! Places in a ledger's history.

/// The most acts of a ledger.
pub(crate) const MOST_ACTS: u32 = 1_000_000;

/// Where the next entry of a ledger's history would stand: its number, from 1, and how many acts
/// stand before it.
#[derive(Clone, Copy, Debug, PartialEq, Eq)]
pub struct Place {
    pub number: u64,
    pub acts: u32,
}
