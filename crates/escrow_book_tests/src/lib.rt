//! Tests of `escrow_book` by its public calls, in a crate of their own: a check with tests proves
//! each function of its crate anew.
//!
//! - `books`: a small ledger, worked out by hand
#![tactic(auto)]

#[cfg(test)]
mod books;
