//! Tests of `ledger_core` by its public calls, in a crate of their own: a check with tests proves
//! each function of its crate anew.
//!
//! - `failing`: each keeper call of an opening and of the acts fails in turn
//! - `ledgers`: ledgers over a keeper in memory
//! - `submitting`: envelopes to a ledger over a keeper in memory
#![tactic(auto)]

#[cfg(test)]
mod failing;
#[cfg(test)]
mod ledgers;
#[cfg(test)]
mod submitting;
