//! Reading envelopes from their texts.

ghost use Rattle.std.specs.Prelude.{◌≡◌, ◌<◌, ◌≤◌, ◌+◌, ◌^◌, length, IfOk, OnOk, Ok};
ghost use Rattle.key_ring.specs.EnvelopeTexts.{Gives, IsReadAt, IsWithinLimits, text_at, sig_at, envelope_text, envelope_from, envelope_of};
ghost use Rattle.key_ring.specs.declared.envelope.Envelope.{Envelope};
ghost use Rattle.key_ring.specs.declared.reading.EnvelopeAt.{EnvelopeAt};

use crate::env_fault::EnvFault;
use crate::envelope::Envelope;
use dh_base::{List, take_u32};
use ots_core::{OtsSig, SIG_LEN, read_sig};
use std::alloc::Global;

/// The most bytes of a message.
const MOST_MESSAGE: u32 = 16384;

/// An envelope that was read, and the place behind its text.
#[derive(Debug, Drop)]
pub struct EnvelopeAt {
    pub env: Envelope,
    pub next: u32,
}

/// A text of at most that many bytes behind its length, and the place behind it.
#[tactic(auto, unfolding(crate::specs::EnvelopeTexts::text_at))]
fn take_text(alloc: Global, bytes: &[u8], at: u32, most: u32) -> Result<(List<u8>, u32), EnvFault>
    requires { length bytes.now < 2 ^ 32 }
    ensures text { Gives result (text_at most bytes.now at) }
    ensures within { IfOk result (λ read. read.1 ≤ length bytes.now) }
{
    let len = take_u32(bytes, at)?;
    if most < len {
        return Err(EnvFault::BadForm { at });
    }
    let start = at as usize + 4;
    let end = start + len as usize;
    if bytes.len() < end {
        return Err(EnvFault::BadForm { at: start as u32 });
    }
    let text = Vec::from_slice(alloc, &bytes[start..end])?;
    Ok((List::from_vec(text), end as u32))
}

/// The signature at a place.
#[tactic(auto, unfolding(crate::specs::EnvelopeTexts::sig_at))]
fn take_sig(bytes: &[u8], at: u32) -> Result<OtsSig, EnvFault>
    ensures sig { result ≡ sig_at bytes.now at }
    ensures within { OnOk result (at + 2180 ≤ length bytes.now) }
{
    let start = at as usize;
    let end = start + SIG_LEN;
    if bytes.len() < end {
        return Err(EnvFault::BadForm { at });
    }
    match read_sig(&bytes[start..end]) {
        Ok(sig) => Ok(sig),
        Err(_) => Err(EnvFault::BadForm { at }),
    }
}

/// The envelope at a place, by its fields.
#[tactic(auto, unfolding(crate::specs::EnvelopeTexts::envelope_from))]
fn take_envelope(alloc: Global, bytes: &[u8], at: u32) -> Result<EnvelopeAt, EnvFault>
    requires { length bytes.now < 2 ^ 32 }
    ensures { Gives result (envelope_from bytes.now at) }
{
    let (ring, next) = take_text(alloc, bytes, at, u32::MAX)?;
    let q = take_u32(bytes, next)?;
    let sig = take_sig(bytes, next + 4)?;
    let (message, next) = take_text(alloc, bytes, next + 4 + SIG_LEN as u32, MOST_MESSAGE)?;
    let env = Envelope {
        ring,
        q,
        sig,
        message,
    };
    Ok(EnvelopeAt { env, next })
}

/// The envelope that all of the bytes are.
#[tactic(auto, unfolding(crate::specs::EnvelopeTexts::envelope_of))]
fn take_whole(alloc: Global, bytes: &[u8]) -> Result<Envelope, EnvFault>
    requires { length bytes.now < 2 ^ 32 }
    ensures { Gives result (envelope_of bytes.now) }
{
    let EnvelopeAt { env, next } = take_envelope(alloc, bytes, 0)?;
    if (next as usize) < bytes.len() {
        return Err(EnvFault::BadForm { at: next });
    }
    Ok(env)
}

/// The envelope whose text begins at a place. What follows the text isn't looked at.
pub fn envelope_at(alloc: Global, bytes: &[u8], at: u32) -> Result<EnvelopeAt, EnvFault>
    requires { length bytes.now < 2 ^ 32 }
    // What is read stands there.
    ensures found { IfOk result (λ read. IsReadAt bytes.now at read) }
    // What stands there is read, unless memory runs out.
    ensures only { (read : EnvelopeAt) → IsReadAt bytes.now at read → Gives result (Ok read) }
    // Which field is the first at fault.
    ensures exact { Gives result (envelope_from bytes.now at) }
{
    take_envelope(alloc, bytes, at)
}

/// The envelope that the bytes spell, all of the bytes.
pub fn read_envelope(alloc: Global, bytes: &[u8]) -> Result<Envelope, EnvFault>
    requires { length bytes.now < 2 ^ 32 }
    // What is read is spelled so.
    ensures found { IfOk result (λ env. IsWithinLimits env × (bytes.now ≡ envelope_text env)) }
    // What is spelled so is read, unless memory runs out.
    ensures only { (env : Envelope) → IsWithinLimits env → bytes.now ≡ envelope_text env
        → Gives result (Ok env) }
    // Which field is the first at fault.
    ensures exact { Gives result (envelope_of bytes.now) }
{
    take_whole(alloc, bytes)
}
