//! Signatures of seats.

use key_ring::Envelope;

/// The envelope in which a seat says a text.
#[derive(Drop)]
pub struct SeatSig {
    /// The number of the seat in its set, from 0.
    pub seat: u16,
    pub env: Envelope,
}
