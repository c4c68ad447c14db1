//! Tests of `keeper_core` by its public calls, in a crate of their own: a check with tests proves
//! each function of its crate anew.
//!
//! - `keepers`: keepers and stores in memory
//! - `callers`: callers of any keeper
#![tactic(auto)]

#[cfg(test)]
mod callers;
#[cfg(test)]
mod keepers;
