//! The rows that a seat keeps: what it is in its house, the records of its log with the texts of
//! their deals, where it began, and the set that it is closed for. The texts that it has signed are
//! kept by its signer.
//!
//! - `place`: which seat of which set it is.
//! - `closing`: for which set, and at which length, it is closed.
//! - `state`: what a seat has in memory, which is what its tables stand for.
//! - `seat_texts`: the texts that it signs.
//! - `laws`: what holds of the tables of every seat.
//! - `rows`, `row_values`, `lists`, `loading`: reading the rows, and the state that they have.
//! - `changes`: what is committed when it is opened, enters, closes and begins.
#![tactic(auto)]

pub mod changes;
pub mod closing;
pub mod laws;
mod lists;
pub mod loading;
pub mod place;
mod row_values;
pub mod rows;
pub mod seat_texts;
pub mod state;

pub use changes::{closing_batch, entry_batch, form_batch};
pub use closing::Closing;
pub use loading::state_of;
pub use place::SeatPlace;
pub use row_values::form_in;
pub use rows::{SeatRows, read_rows};
pub use seat_texts::{has_handed, text_of_handover, text_of_prefix};
pub use state::SeatState;
