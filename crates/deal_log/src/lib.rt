//! The log of votes as it takes signed envelopes: who asks for what, whether it is a party's to
//! ask, and the texts of the deals that are started. A log can be built again from its records and
//! those texts.
//!
//! - `deal_text`, `deal_texts`: texts of deals that were read, and those of a log by their deals.
//! - `posting`: what an envelope asks of a log.
//! - `admit_fault`: the refusals.
//! - `log`: the log.
//! - `rebuilding`, `rebuild_fault`: making a log again, and why that is refused.
//! - `laws`: laws of what logs take.
#![tactic(auto)]

pub mod admit_fault;
pub mod deal_text;
pub mod deal_texts;
pub mod laws;
pub mod log;
pub mod posting;
pub mod rebuild_fault;
mod rebuilding;

pub use admit_fault::AdmitFault;
pub use deal_text::DealText;
pub use log::{MOST_RECORDS, VoteLog};
pub use posting::{Posting, read_posting};
pub use rebuild_fault::RebuildFault;
