//! The texts over which an envelope is forged.

use dh_base::{List, Name, Outcome};

/// What a forged envelope says, in the names of the script. A number is none where it exceeds 32
/// bits.
#[derive(Drop)]
pub enum ForgedText {
    /// The act that registers the deal.
    Register {
        deal: Name,
    },
    /// The act that pays an amount of the asset.
    Pay {
        ledger: Name,
        to: Name,
        asset: Name,
        amount: u64,
    },
    /// The act that escrows an amount of the asset for the deal.
    Escrow {
        deal: Name,
        ledger: Name,
        asset: Name,
        amount: u64,
    },
    /// The act that moves an amount of what the signer would have if the deal commits.
    Transfer {
        deal: Name,
        ledger: Name,
        turn: Option<u32>,
        to: Name,
        asset: Name,
        amount: u64,
    },
    /// The start of the deal.
    Start {
        deal: Name,
    },
    /// The signer's vote on the deal.
    Vote {
        deal: Name,
        vote: Outcome,
    },
    /// The records of the log, as a seat of the set vouches for them.
    Prefix {
        set: Name,
        log: Name,
    },
    /// The handover from a set to the next one, at the records of the log.
    Handover {
        set: Name,
        log: Name,
        next: Name,
    },
    /// The outcome of the deal by the first records of the log, as a seat of the set vouches for
    /// it.
    Status {
        set: Name,
        deal: Name,
        log: Name,
        len: Option<u32>,
        outcome: Outcome,
    },
    /// These bytes.
    Bytes {
        message: List<u8>,
    },
}
