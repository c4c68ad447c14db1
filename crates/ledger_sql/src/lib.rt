//! A ledger over a database: what holds of a ledger over any keeper, said over the table of a
//! database.
//!
//! - `ledgers`: opening a ledger over a database, and taking the act of an envelope
#![tactic(auto)]

pub mod ledgers;

pub use ledgers::{open, submit};

#[cfg(test)]
mod tests;
