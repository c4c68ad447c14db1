//! Ledgers: they keep assets for parties, and take acts in signed envelopes, each once.
//!
//! - `ledger`: ledgers; `act_reply`: what they reply to acts; `asking`: questions to them
//! - `opening`: openings; `form_row`: the row by which tables name theirs; `opens`: opening a
//!   ledger over tables; `refused`: a keeper that comes back
//! - `ask_fault`, `open_fault`: why a ledger answers no question, and why it isn't opened
//! - `laws`: what a ledger conserves
#![tactic(auto)]

pub mod act_reply;
pub mod ask_fault;
mod asking;
mod form_row;
pub mod laws;
pub mod ledger;
pub mod open_fault;
pub mod opening;
mod opens;
pub mod refused;

pub use act_reply::ActReply;
pub use ask_fault::AskFault;
pub use ledger::Ledger;
pub use ledger_acts::LedgerFault;
pub use ledger_claims::{ClaimReply, ShowFault};
pub use open_fault::OpenFault;
pub use opening::{OpenRow, Opening};
pub use refused::Refused;
