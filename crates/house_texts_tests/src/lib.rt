//! Tests of `house_texts` by its public calls, in a crate of their own: a check with tests proves
//! each function of its crate anew.
//!
//! - `house`: the texts of a small house
#![tactic(auto)]

#[cfg(test)]
mod house;
