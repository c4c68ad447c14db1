//! What a ledger replies to a claim.

use dh_base::Outcome;

/// What a ledger replies to a claim on a deal that is decided.
#[derive(Clone, Copy, Debug, PartialEq, Eq)]
pub enum ClaimReply {
    /// The claim has settled the deal.
    Settled { outcome: Outcome },
    /// The deal has ended before.
    Already { outcome: Outcome },
}
