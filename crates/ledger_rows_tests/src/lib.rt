//! Tests of `ledger_rows` by its public calls, in a crate of their own: a check with tests proves
//! each function of its crate anew.
//!
//! - `rows`: rows of each table, by their digests
#![tactic(auto)]

#[cfg(test)]
mod rows;
