//! What happens in a plain script.

use dh_base::Name;

/// A line that happens: it stands behind `begin`. A number of 32 bits is none where it exceeds
/// them.
#[derive(Clone, Copy)]
pub enum Event {
    /// The party registers the deal on the ledger.
    Register {
        ledger: Name,
        deal: Name,
        party: Name,
    },
    /// The party escrows an amount of the asset for the deal.
    Escrow {
        ledger: Name,
        deal: Name,
        party: Name,
        asset: Name,
        amount: u64,
    },
    /// A party moves an amount of what it would have if the deal commits.
    Transfer {
        ledger: Name,
        deal: Name,
        from: Name,
        turn: Option<u32>,
        to: Name,
        asset: Name,
        amount: u64,
    },
    /// The party starts the deal in the log.
    Start {
        deal: Name,
        party: Name,
    },
    /// The party votes to commit.
    Commit {
        deal: Name,
        party: Name,
    },
    /// The party votes to abort.
    Abort {
        deal: Name,
        party: Name,
    },
    /// The first `len` records of the log are shown to the ledger, to settle the deal.
    Claim {
        ledger: Name,
        deal: Name,
        len: Option<u32>,
    },
}
