//! Making envelopes, and writing their texts.

ghost use Rattle.std.specs.Prelude.{◌≡◌, ◌≤◌, ◌<◌, ◌+◌, ◌*◌, ◌^◌, ◌++◌, length, IfOk, OnOk};
ghost use Rattle.sha2.specs.Sha256.{sha256};
ghost use Rattle.key_ring.specs.EnvelopeTexts.{envelope_text};
ghost use Rattle.key_ring.specs.Making.{envelope_made};
ghost use Rattle.key_ring.specs.Saying.{Says};

use crate::envelope::Envelope;
use crate::key_spec::KeySpec;
use crate::ring::make_ring;
use dh_base::{List, NoMemory, put_text, put_u32};
use ots_core::{sign, write_sig};
use std::alloc::Global;

/// The text of an envelope. It is read again where the message has at most 16,384 bytes.
pub fn write_envelope(alloc: Global, env: &Envelope) -> Result<List<u8>, NoMemory>
    requires ring { length env.now.ring < 2 ^ 32 }
    requires message { length env.now.message < 2 ^ 32 }
    ensures text { IfOk result (λ text. text ≡ envelope_text env.now) }
    ensures len { IfOk result (λ text. length text
        ≡ 2192 + length env.now.ring + length env.now.message) }
{
    let mut text = Vec::new(alloc);
    put_text(&mut text, env.ring.as_slice())?;
    put_u32(&mut text, env.q)?;
    text.extend_from_slice(&write_sig(&env.sig))?;
    put_text(&mut text, env.message.as_slice())?;
    Ok(List::from_vec(text))
}

/// The envelope in which key `q` of the ring of a seed signs the message. Nothing keeps which keys
/// have signed: who calls it sees to it that a key signs one message only.
pub fn make_envelope(
    alloc: Global,
    spec: &KeySpec,
    q: u32,
    message: &[u8],
) -> Result<Envelope, NoMemory>
    requires key { q < spec.now.size }
    requires message { length message.now ≤ 16384 }
    ensures envelope { IfOk result (λ env. env
        ≡ envelope_made spec.now.seed spec.now.ident spec.now.size q message.now) }
    ensures says { IfOk result (λ env. Says env (sha256 env.ring) q message.now) }
    ensures ring_len { IfOk result (λ env. length env.ring ≡ 26 + 32 * spec.now.size) }
{
    let ring = make_ring(alloc, spec)?;
    let message_kept = Vec::from_slice(alloc, message)?;
    Ok(Envelope {
        ring,
        q,
        sig: sign(&spec.seed, &spec.ident, q, message),
        message: List::from_vec(message_kept),
    })
}
