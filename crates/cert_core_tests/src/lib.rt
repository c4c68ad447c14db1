//! Tests of `cert_core` by its public calls, in a crate of their own: a check with tests proves
//! each function of its crate anew.
//!
//! - `quorums`: quorums of a set of four seats, of which one may deviate
//! - `seat_texts`: the texts that seats sign, by their digests
//! - `sets`: sets go through their texts, and their ids
#![tactic(auto)]

#[cfg(test)]
mod quorums;
#[cfg(test)]
mod seat_texts;
#[cfg(test)]
mod sets;
