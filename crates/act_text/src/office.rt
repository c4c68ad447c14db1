//! To whom an act is brought.

/// To whom an act is brought.
#[derive(Clone, Copy, Debug, PartialEq, Eq)]
pub enum Office {
    /// A ledger, which takes registrations, payments, escrows and transfers.
    Ledger,
    /// The log of votes, which takes starts and votes.
    Log,
}
