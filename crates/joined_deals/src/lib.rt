//! Deals that a party has joined: what it signs in them, which keys that wants, what it has heard
//! of them, and when it has seen that one is right.
//!
//! - `joined_deal`, `deal_texts`: a joined deal with the texts that the party signs in it.
//! - `signed`: which of these texts are signed.
//! - `heard`: the statements that are kept.
//! - `seeing`: what a deal lacks by them.
//! - `agent_fault`: why an agent refuses a call.
//! - `laws`: what holds of an agent behind every list of steps.
#![tactic(auto)]

pub mod agent_fault;
mod deal_texts;
pub mod heard;
pub mod joined_deal;
pub mod laws;
pub mod seeing;
pub mod signed;

pub use agent_fault::AgentFault;
pub use joined_deal::JoinedDeal;
