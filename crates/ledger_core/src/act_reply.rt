//! What a ledger replies to an act.

/// What a ledger replies to an act that it accepts, or has accepted before.
#[derive(Clone, Copy, Debug, PartialEq, Eq)]
pub enum ActReply {
    /// The number of the act's entry in the ledger's history, from 1.
    Done { at: u64 },
}
