//! Tests of `house_grammar` by its public calls, in a crate of their own: a check with tests proves
//! each function of its crate anew.
//!
//! - `lines`: lines of house scripts
#![tactic(auto)]

#[cfg(test)]
mod lines;
