//! Tests of `key_ring` by its public calls, in a crate of their own: a check with tests proves
//! each function of its crate anew.
//!
//! - `rings`: rings, accounts and envelopes; below it, signers over a keeper in memory
#![tactic(auto)]

#[cfg(test)]
mod rings;
