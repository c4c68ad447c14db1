//! Plain scripts, where all ledgers read one log: what each event is answered, the final tables,
//! and the whole report of a rehearsal.
#![tactic(auto)]

pub mod act_refusal;
pub mod claim_refusal;
pub mod laws;
mod ledger;
pub mod log_refusal;
mod openings;
mod order;
mod rehearsal;
pub mod reply;
mod tables;
mod voting;
mod world;

pub use act_refusal::ActRefusal;
pub use claim_refusal::ClaimRefusal;
pub use log_refusal::LogRefusal;
pub use rehearsal::rehearse_plain;
pub use reply::Reply;
pub use script_lines::{ScriptHalt as PlainHalt, ScriptRule};
