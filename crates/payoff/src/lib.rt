//! The promise over runs: whatever deviating parties send, no two ledgers settle a deal
//! differently; a compliant party gets at least its due on each ledger that commits, and exactly
//! its escrow on each that aborts. It stands over the lists that quorums certified, of which the
//! laws of one log speak.
//!
//! - `laws`: the laws of runs.
#![tactic(auto)]

pub mod laws;
