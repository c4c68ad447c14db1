//! Tests of `house_holders` by its public calls, in a crate of their own: a check with tests
//! proves each function of its crate anew.
//!
//! - `holders`: holders that lines declare, and envelopes that forge their signatures
#![tactic(auto)]

#[cfg(test)]
mod holders;
