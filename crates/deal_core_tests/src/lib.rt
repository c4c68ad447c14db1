//! Tests of `deal_core` by its public calls, in a crate of their own: a check with tests proves
//! each function of its crate anew.
//!
//! - `deals`: deals go through their texts, and each refusal of a text
#![tactic(auto)]

#[cfg(test)]
mod deals;
