//! What a line of a deal's text says.

use crate::party::Party;
use dh_base::{Id, Name};

/// A step as a line spells it, with the names of its parties.
#[derive(Clone, Copy)]
pub(crate) struct NamedStep {
    pub(crate) from: Name,
    pub(crate) to: Name,
    pub(crate) ledger: Name,
    pub(crate) asset: Name,
    pub(crate) amount: u64,
}

/// What a line of a deal's text says.
#[derive(Clone, Copy)]
pub(crate) enum DealLine {
    /// The deal's name.
    Deal { name: Name },
    /// The house in whose log the deal is decided.
    House { house: Id },
    Party { party: Party },
    Step { step: NamedStep },
}
