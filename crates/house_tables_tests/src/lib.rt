//! Tests of `house_tables` by its public calls, in a crate of their own: a check with tests proves
//! each function of its crate anew.
//!
//! - `ledgers`: what is told of the rows of a ledger
#![tactic(auto)]

#[cfg(test)]
mod ledgers;
