//! Claims on a ledger's rows: why a claim is refused, what it settles, and its step by history.
//!
//! - `show_fault`, `claim_reply`: the refusals, and what is replied to a claim
//! - `owned`: what is owned in a deal, by the rows of the table of holds
//! - `payees`: who is paid by a settlement, and what each can spend before it
//! - `settling`: a settlement by the rows, as one batch
//! - `claiming`: claims as a whole, by their certificates
#![tactic(auto)]

pub mod claim_reply;
pub mod claiming;
mod owned;
pub mod payees;
mod settling;
pub mod show_fault;

pub use claim_reply::ClaimReply;
pub use claiming::claim;
pub use show_fault::ShowFault;
