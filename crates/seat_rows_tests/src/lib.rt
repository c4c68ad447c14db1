//! Tests of `seat_rows` by its public calls, in a crate of their own: a check with tests proves
//! each function of its crate anew.
//!
//! - `states`: what tables stand for, and what is committed; below it, loading a state
#![tactic(auto)]

#[cfg(test)]
mod states;
