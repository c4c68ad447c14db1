//! Deals whose parties all comply: each act of their plans is accepted, each owns its due if the
//! deal commits, each finds the deal validated, and a log of all commits commits it.
//!
//! - `laws`: the laws of such deals.
#![tactic(auto)]

pub mod laws;
