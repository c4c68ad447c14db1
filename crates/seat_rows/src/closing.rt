//! Closings of seats.

use cert_core::Set;

/// A seat is closed at that many records, and hands over to that set.
#[derive(Drop)]
pub struct Closing {
    pub len: u32,
    pub next: Set,
}
