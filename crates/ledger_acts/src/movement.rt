//! Movements.

use dh_base::{Id, Name};

/// What an act moves in the book of a ledger.
#[derive(Clone, Copy)]
pub enum Movement {
    /// A payment from one account to another.
    Payment {
        from: Id,
        to: Id,
        asset: Name,
        amount: u64,
    },
    /// A party puts an amount that it can spend under a deal.
    Escrow {
        deal: Id,
        party: Id,
        asset: Name,
        amount: u64,
    },
    /// A party hands what it owns in a deal to another, if the deal commits. The turn is the number
    /// of the transfers that it has made in the deal.
    Transfer {
        deal: Id,
        from: Id,
        turn: u32,
        to: Id,
        asset: Name,
        amount: u64,
    },
}
