//! Statements.

use dh_base::{Id, List, Name, Outcome};

/// An amount of an asset that is held.
#[derive(Clone, Copy, PartialEq, Eq)]
pub struct HeldRow {
    pub asset: Name,
    pub amount: u64,
}

/// What a ledger tells of a party of a deal.
#[derive(Drop)]
pub struct Statement {
    pub house: Id,
    pub ledger: Name,
    pub deal: Id,
    pub party: Id,
    /// How many entries the ledger's history has.
    pub at: u64,
    /// How many transfers the party has made in the deal on this ledger.
    pub moves: u32,
    /// What the party owns of each asset if the deal commits, in ascending order of the assets.
    pub rows: List<HeldRow>,
    /// How the deal was settled here, if it was.
    pub settled: Option<Outcome>,
}
