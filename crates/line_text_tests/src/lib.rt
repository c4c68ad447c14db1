//! Tests of `line_text` by its public calls, in a crate of their own: a check with tests proves
//! each function of its crate anew.
//!
//! - `lines`: texts line by line and word by word
#![tactic(auto)]

#[cfg(test)]
mod lines;
