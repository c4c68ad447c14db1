//! Signed envelopes.

use dh_base::List;
use ots_core::OtsSig;

/// A message signed by a key of a ring.
#[derive(Debug, Drop)]
pub struct Envelope {
    /// The text of the ring.
    pub ring: List<u8>,
    /// The number of the key.
    pub q: u32,
    pub sig: OtsSig,
    pub message: List<u8>,
}
