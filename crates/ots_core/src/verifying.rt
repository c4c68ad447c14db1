//! Verifying a signature (RFC 8554, section 4.6).

ghost use Rattle.std.specs.Prelude.{◌≡◌, ◌↔◌, IsTrue};
ghost use Rattle.ots_core.specs.Validity.{IsOtsValid, completed_ends};
ghost use Rattle.ots_core.specs.Keys as keys;

use crate::chain::{STEPS, ends_hash};
use crate::coefficients::{coefficients, with_checksum};
use crate::key::Key;
use crate::ots_sig::OtsSig;
use crate::signing::message_digest;
use crate::walks::{Ways, walk};

/// The hash over the ends to which the signature's elements lead.
fn candidate(ident: &[u8; 16], q: u32, msg: &[u8], sig: &OtsSig) -> [u8; 32]
    ensures { result ≡ keys.ends_hash ident.now q (completed_ends ident.now q msg.now sig.now) }
{
    let text = with_checksum(&message_digest(ident, q, &sig.c, msg));
    let ways = Ways {
        from: coefficients(&text),
        to: [STEPS; 67],
    };
    ends_hash(ident, q, &walk(&Key::new(ident, q), &ways, &sig.y))
}

/// Whether the signature of the message is valid under the public key `k`.
pub fn verify(ident: &[u8; 16], q: u32, k: &[u8; 32], msg: &[u8], sig: &OtsSig) -> bool
    ensures { IsTrue result ↔ IsOtsValid ident.now q k.now msg.now sig.now }
{
    candidate(ident, q, msg, sig) == *k
}
