//! Links between validator sets.

use cert_core::SeatSig;
use dh_base::{Id, List};

/// A handover: seats of one set sign that the first `len` records of the log have that head, and
/// that the set of the text goes on from there.
#[derive(Drop)]
pub struct Link {
    /// The text of the next set.
    pub set_text: List<u8>,
    pub len: u32,
    pub head: Id,
    pub sigs: List<SeatSig>,
}
