//! Rules of an agent without which the promise fails: histories that a ledger accepts, in which a
//! party whose agent leaves the rule out puts up more than it needs, or is paid less than its due.
//!
//! - `laws`: the laws that show it.
#![tactic(auto)]

pub mod laws;
