//! The books of one ledger. Each escrowed asset has two recorded owners: who gets it if its deal
//! commits, and who gets it if its deal aborts. What an account holds follows from the opening rows
//! and from the changes that the book has accepted, in order.
//!
//! - `book`: the book and its calls
//! - `change`: a change that a book has accepted
//! - `entry`: a change as a book keeps it
//! - `fault`: the refusals
//! - `known_deal`: what a book keeps at hand of a registered deal
//! - `laws`: what holds of every history that a book reaches
//! - `opening`: opening rows, and the first that isn't good
//! - `part`: the rows of a part of a book, taken up one by one
//! - `part_fault`: why rows make no part
//! - `part_rows`: what is taken up of the rows of a part
//! - `part_sums`: running sums of the rows of a part
//! - `row`: what a part of a book is made of
//! - `tally`: sums by key
#![tactic(auto)]

pub mod book;
pub mod change;
mod entry;
pub mod fault;
mod known_deal;
pub mod laws;
pub mod opening;
mod part;
pub mod part_fault;
mod part_rows;
mod part_sums;
pub mod row;
mod tally;

pub use book::Book;
pub use change::Change;
pub use fault::BookFault;
pub use opening::first_bad_row;
pub use part_fault::PartFault;
pub use row::{BookRow, HoldRow, MovesRow};
