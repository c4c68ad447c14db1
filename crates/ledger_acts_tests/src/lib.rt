//! Tests of `ledger_acts` by its public calls, in a crate of their own: a check with tests proves
//! each function of its crate anew.
//!
//! - `moving_once`: movements under their keys
//! - `registering`: registrations
//! - `submitting`: acts by their envelopes
#![tactic(auto)]

#[cfg(test)]
mod moving_once;
#[cfg(test)]
mod registering;
#[cfg(test)]
mod submitting;
