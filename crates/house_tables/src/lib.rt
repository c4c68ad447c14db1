//! The final tables of a ledger, as a report prints them: from the rows of its keeper, in the order
//! of the printed text.
//!
//! - `line`: texts in their order
//! - `rows`: what the rows of a keeper say
//! - `printing`: what is printed for them
//! - `tables`: all tables of a ledger
#![tactic(auto)]

pub mod line;
mod printing;
mod rows;
pub mod tables;

pub use line::{Line, in_order};
pub use rows::{DealRow, FreeRow, HoldRow};
pub use tables::ledger_tables;
