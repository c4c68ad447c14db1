//! Tests of `act_text` by its public calls, in a crate of their own: a check with tests proves
//! each function of its crate anew.
//!
//! - `texts`: acts and statements as texts
#![tactic(auto)]

#[cfg(test)]
mod texts;
