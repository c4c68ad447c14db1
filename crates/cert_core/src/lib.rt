//! Validator sets: who vouches for the log. A set has an epoch and 3f + 1 seats, of which up to f
//! may deviate; its id is the digest of its text, and the id of the set of epoch 0 names a house.
//! What 2f + 1 different seats say, in signed envelopes, is vouched for.
//!
//! [`read_set`] and [`write_set`] lead between a set and its one text, and [`set_id`] gives its id.
//! [`quorum`] counts who has signed a text, and [`prefix_text`] and [`handover_text`] are what
//! seats sign.
#![tactic(auto)]

pub mod laws;
pub mod quorum_fault;
pub mod quorums;
pub mod seat_sig;
pub mod seat_text;
pub mod set;
pub mod set_fault;
pub mod set_text;

pub use quorum_fault::QuorumFault;
pub use quorums::quorum;
pub use seat_sig::SeatSig;
pub use seat_text::{handover_text, prefix_text};
pub use set::Set;
pub use set_fault::SetFault;
pub use set_text::{read_set, set_id, write_set};
