//! Tests of claims by `ledger_core`'s public calls, in a crate of their own: a check with tests
//! proves each function of its crate anew.
//!
//! - `house`: a house of one seat, a deal of two parties, and the ledger on which it stands
//! - `claims`: what claims are answered, and what they pay
//! - `failing`: each keeper call of a claim fails in turn
#![tactic(auto)]

#[cfg(test)]
mod claims;
#[cfg(test)]
mod failing;
#[cfg(test)]
mod house;
