//! Tests of `joined_deals` by its public calls, in a crate of their own: a check with tests proves
//! each function of its crate anew.
//!
//! - `joined`: joined deals, and what is heard of them
#![tactic(auto)]

#[cfg(test)]
mod joined;
