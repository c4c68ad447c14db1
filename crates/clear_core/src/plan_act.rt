//! What a party does in a deal.

use dh_base::Name;

/// An act of a party's plan.
#[derive(Clone, Copy)]
pub enum PlanAct {
    Register,
    Escrow {
        ledger: Name,
        asset: Name,
        amount: u64,
    },
    /// `turn` is the number of the party's earlier transfers on the ledger.
    Transfer {
        ledger: Name,
        turn: u32,
        to: u16,
        asset: Name,
        amount: u64,
    },
}
