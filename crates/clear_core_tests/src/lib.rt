//! Tests of `clear_core` by its public calls, in a crate of their own: a check with tests proves
//! each function of its crate anew.
//!
//! - `clearing`: plans, limits and texts of clearings
#![tactic(auto)]

#[cfg(test)]
mod clearing;
