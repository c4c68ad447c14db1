//! Envelopes with a changed signature.

ghost use Rattle.std.specs.Prelude.{◌≡◌, IfOk};
ghost use Rattle.house_building.specs.Flipping.{flipped_sig, flipped};

use dh_base::{List, NoMemory};
use key_ring::Envelope;
use ots_core::OtsSig;
use std::alloc::Global;

/// The signature with the lowest bit of its last byte changed.
fn flipped_sig(sig: &OtsSig) -> OtsSig
    ensures { result ≡ flipped_sig sig.now }
{
    let mut flipped = *sig;
    let mut last = flipped.y[66];
    last[31] ^= 1;
    flipped.y[66] = last;
    flipped
}

/// The envelope with the lowest bit of the last byte of its signature changed.
pub fn flipped(alloc: Global, env: &Envelope) -> Result<Envelope, NoMemory>
    ensures { IfOk result (λ made. made ≡ flipped env.now) }
{
    let ring = Vec::from_slice(alloc, env.ring.as_slice())?;
    let message = Vec::from_slice(alloc, env.message.as_slice())?;
    Ok(Envelope {
        ring: List::from_vec(ring),
        q: env.q,
        sig: flipped_sig(&env.sig),
        message: List::from_vec(message),
    })
}
