//! Tests of `deal_log` by its public calls, in a crate of their own: a check with tests proves
//! each function of its crate anew.
//!
//! - `logs`: a log of deals of rings of parties; below it, logs that are built again
#![tactic(auto)]

#[cfg(test)]
mod logs;
