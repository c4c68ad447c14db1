//! What a house is made of: the text of its first set, the texts of its deals, and the openings of
//! its ledgers, from its declarations.
//!
//! - `genesis`: the first set, whose id the house has
//! - `deals`: the texts of deals, and their ids
//! - `openings`: with what a ledger opens
//! - `setting`: all of it, with the holders, and by which names ids are printed
#![tactic(auto)]

pub mod deals;
pub mod genesis;
pub mod openings;
pub mod setting;

pub use deals::DealText;
pub use setting::Setting;
