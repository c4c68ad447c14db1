//! A keeper for the tests of nodes: one in memory of which the call of a given number fails, and no
//! other. So a test lets each keeper call of a node fail in turn.
//!
//! - `failing_keeper`: that keeper
#![tactic(auto)]

pub mod failing_keeper;

pub use failing_keeper::FailingKeeper;

#[cfg(test)]
mod tests;
