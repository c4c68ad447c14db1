//! Acts on a ledger's rows: what a ledger refuses, its step by history, and each kind of act by the
//! rows that it touches.
//!
//! - `ledger_fault`: the refusals
//! - `ledger_id`, `place`: which ledger it is, and where its next entry stands
//! - `signed`: signed messages
//! - `movement`, `part_rows`, `moving`: payments, escrows and transfers
//! - `registering`: registrations
//! - `laws`: a key has one accepted message
//! - `once`, `submitting`: acts under their keys, and as a whole by their envelopes
#![tactic(auto)]

pub mod laws;
pub mod ledger_fault;
pub mod ledger_id;
pub mod movement;
mod moving;
pub mod once;
mod part_rows;
pub mod place;
pub mod registering;
pub mod signed;
pub mod submitting;

pub use ledger_fault::LedgerFault;
pub use ledger_id::LedgerId;
pub use movement::Movement;
pub use place::Place;
pub use signed::Signed;
pub use submitting::submit;
