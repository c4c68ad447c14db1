//! What a holder signs.

use dh_base::{Id, List, Name, Outcome};

/// What a holder signs. Amounts are at most 2^63 - 1.
#[derive(Drop)]
pub enum Act {
    /// Registers the deal of a text on a ledger.
    Register {
        text: List<u8>,
    },
    /// Pays another account on a ledger of a house.
    Pay {
        house: Id,
        ledger: Name,
        to: Id,
        asset: Name,
        amount: u64,
    },
    /// Escrows an amount in a deal.
    Escrow {
        deal: Id,
        ledger: Name,
        asset: Name,
        amount: u64,
    },
    /// Moves what is escrowed in a deal to another of its parties, tentatively. Turns count the
    /// sender's transfers of the deal on that ledger from 0.
    Transfer {
        deal: Id,
        ledger: Name,
        turn: u32,
        to: Id,
        asset: Name,
        amount: u64,
    },
    /// Starts the deal of a text in the log.
    StartDeal {
        text: List<u8>,
    },
    /// The vote of the party of that index.
    Vote {
        deal: Id,
        index: u16,
        choice: Outcome,
    },
}
