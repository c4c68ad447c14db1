//! Keepers that come back.

use crate::open_fault::OpenFault;

/// A keeper that comes back, and why no ledger is opened over it.
#[derive(Drop)]
pub struct Refused<K> {
    pub keeper: K,
    pub fault: OpenFault,
}
