//! The rows that a ledger keeps: of each table how keys and values are spelled, what they stand
//! for, and what a keeper is asked for to read them and to change them.
//!
//! - `tables`: the numbers of the tables
//! - `keys`: the keys of rows
//! - `changes`: changes to rows, as parts of a batch
//! - `free_amount`, `registration`, `hold`, `move_count`, `used_key`, `entry`: the values of rows,
//!   a type for each table
//! - `reading`: reading the rows of each table
//! - `open_deals`: counting the deals that an account has registered and that are not settled
//! - `scans`: reading all rows of a table; `row_form`, `held_rows`: which of them have their form,
//!   and what they list
//! - `row_value`: what the values of all tables have in common, and reading a row
#![tactic(auto)]

pub mod changes;
pub mod entry;
mod fields;
pub mod free_amount;
mod held_rows;
pub mod hold;
pub mod keys;
pub mod laws;
pub mod move_count;
pub mod open_deals;
pub mod reading;
pub mod registration;
mod row_form;
pub mod row_value;
pub mod scans;
pub mod tables;
pub mod used_key;

pub use changes::{put_entry, put_free, put_hold, put_moves, put_registration, put_used};
pub use entry::Entry;
pub use free_amount::FreeAmount;
pub use hold::Hold;
pub use move_count::MoveCount;
pub use open_deals::{count_open, count_open_unless};
pub use reading::{read_free, read_hold, read_moves, read_registration, read_used};
pub use registration::Registration;
pub use row_value::{RowValue, read_row};
pub use scans::{count_settled, scan_held};
pub use tables::{DEAL_TAB, ENTRY_TAB, FREE_TAB, HOLD_TAB, MOVES_TAB, USED_TAB};
pub use used_key::UsedKey;
