//! Tests of `plain_script` by its public calls, in a crate of their own: a check with tests proves
//! each function of its crate anew.
//!
//! - `scripts`: plain scripts, and each rule at a line
#![tactic(auto)]

#[cfg(test)]
mod scripts;
