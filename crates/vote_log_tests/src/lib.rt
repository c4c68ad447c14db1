//! Tests of `vote_log` by its public calls, in a crate of their own: a check with tests proves
//! each function of its crate anew.
//!
//! - `logs`: logs worked out by hand; below it, texts of records, and heads
#![tactic(auto)]

#[cfg(test)]
mod logs;
