//! Tests of `claim_core` by its public calls, in a crate of their own: a check with tests proves
//! each function of its crate anew.
//!
//! - `certifying`: what claims certify, and where chains of links end
//! - `texts`: links and claims go through their texts
#![tactic(auto)]

#[cfg(test)]
mod certifying;
#[cfg(test)]
mod texts;
