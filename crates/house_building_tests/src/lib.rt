//! Tests of `house_building` by its public calls, in a crate of their own: a check with tests
//! proves each function of its crate anew.
//!
//! - `building`: what lines build, and the rules that they break
#![tactic(auto)]

#[cfg(test)]
mod building;
