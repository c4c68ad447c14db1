//! One log: what compliant seats keep to, whatever is shown to the nodes of a house. Over every
//! run, with any number of handovers, quorums certify the fronts of one list of records.
//!
//! - `laws`: the laws of runs.
#![tactic(auto)]

pub mod laws;
