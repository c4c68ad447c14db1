//! The log of votes: which deals were started, who voted to commit or to abort, and what that
//! decides. A log has a limit, and keeps room for every vote that a started deal still needs.
//!
//! - `kind`, `log_record`: the records of a log.
//! - `record_fault`, `record_texts`: the texts of records.
//! - `heads`: the head of a log, one id that stands for all of it.
//! - `decision`: what a log decides of a deal.
//! - `tally`: the count of one deal's votes.
//! - `tallies`: the tallies of all deals.
//! - `admission`: which records a log takes.
//! - `log_fault`: the refusals.
//! - `records`: a log that grows.
//! - `laws`: laws of logs.
#![tactic(auto)]

mod admission;
pub mod decision;
pub mod heads;
pub mod kind;
pub mod laws;
pub mod log_fault;
pub mod log_record;
pub mod record_fault;
pub mod record_texts;
pub mod records;
mod tallies;
mod tally;

pub use decision::{Decision, outcome};
pub use heads::{first_head, head_of, head_onward};
pub use kind::Kind;
pub use log_fault::LogFault;
pub use log_record::LogRecord;
pub use record_fault::RecordFault;
pub use record_texts::{RECORD_LEN, record_at, record_text};
pub use records::Records;
