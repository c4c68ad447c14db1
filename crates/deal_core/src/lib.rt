//! Deals and their texts. A deal has parties and steps in an order, each of which passes an amount
//! of an asset on a ledger from one party to another. Its text is lines, and its id is the digest
//! of the text.
//!
//! - `deal`, `party`, `step`: a deal, its matrix, and the index of a party.
//! - `reading`, `writing`: from a text to its deal, and back.
//! - `deal_fault`: what is wrong with a text.
//! - `draft`, `step_list`: what the lines so far come to, and the fault of the next.
//! - `reach`: whether the parties reach each other.
//! - `deal_line`, `saying`: what a line says, read from its words.
//! - `laws`: a text is read exactly as the deal that it spells, and refused for its first fault.
#![tactic(auto)]

pub mod deal;
pub mod deal_fault;
mod deal_line;
mod draft;
pub mod laws;
pub mod party;
pub mod reach;
pub mod reading;
mod saying;
pub mod step;
mod step_list;
pub mod writing;

pub use deal::{Deal, matrix, party_of};
pub use deal_fault::DealFault;
pub use party::Party;
pub use reading::{parties_in, read_deal};
pub use step::Step;
pub use writing::write_deal;
