//! What a ledger's history keeps to: its book is one that a book reaches, nothing is created or
//! lost, a settlement pays what the history gives for its outcome, and a party that has made all
//! its moves in a deal loses nothing more of what it gets on commit.
//!
//! - `laws`: the laws of histories and of plans.
#![tactic(auto)]

pub mod laws;
