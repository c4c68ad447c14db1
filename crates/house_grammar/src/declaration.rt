//! What a house script declares.

use crate::holder_line::{Conduct, KeySize};
use dh_base::{List, Name};

/// A line that declares: it stands before `begin`. A number is none where it exceeds 32 bits.
#[derive(Drop)]
pub enum Declaration {
    /// A party, whose account has that many keys.
    Party {
        name: Name,
        conduct: Conduct,
        size: KeySize,
    },
    /// A seat, whose account has that many keys.
    Seat {
        name: Name,
        conduct: Conduct,
        size: KeySize,
    },
    /// A set of validators, which tolerates so many faulty seats. The first set is the genesis.
    Set {
        name: Name,
        epoch: Option<u32>,
        faults: Option<u32>,
        seats: List<Name>,
    },
    /// A ledger of this name.
    Ledger {
        name: Name,
    },
    /// An opening row: the party begins with the amount of the asset on the ledger.
    Open {
        ledger: Name,
        asset: Name,
        party: Name,
        amount: u64,
    },
    /// A deal of these parties, in this order.
    Deal {
        name: Name,
        parties: List<Name>,
    },
    /// The next step of the deal.
    Step {
        deal: Name,
        from: Name,
        to: Name,
        ledger: Name,
        asset: Name,
        amount: u64,
    },
}
