//! Tests of `agent_core` by its public calls, in a crate of their own: a check with tests proves
//! each function of its crate anew.
//!
//! - `broker`: the broker of a deal of three parties
//! - `agents`: her agent, from the deal's text to her commit
//! - `refusals`: what each call is refused for
//! - `failing`: each keeper call fails in turn, and a keeper stops
#![tactic(auto)]

#[cfg(test)]
mod agents;
#[cfg(test)]
mod broker;
#[cfg(test)]
mod failing;
#[cfg(test)]
mod refusals;
