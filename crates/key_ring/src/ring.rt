//! The text of a ring: a tag, the ident, the number of keys, and the keys.

ghost use Rattle.std.specs.Prelude.{◌≡◌, ◌≤◌, ◌<◌, ◌+◌, ◌*◌, ◌^◌, length, take, drop, IfOk};
ghost use Rattle.sha2.specs.Sha256.{sha256};
ghost use Rattle.dh_base.specs.Fields.{AreBytes};
ghost use Rattle.key_ring.specs.Rings.{ring_tag, ring_text, ring_size_of, shared_len, said_keys};
ghost use Rattle.key_ring.specs.Making.{ring_made};

use crate::key_spec::KeySpec;
use dh_base::{Id, List, NoMemory, digest, put_u16};
use ots_core::keygen;
use std::alloc::Global;

/// What stands first in the text of a ring.
const TAG: [u8; 8] = *b"CCDRING1";

/// Where the number of keys stands.
const COUNT_PLACE: usize = 24;

/// Where the keys begin.
const KEYS_PLACE: usize = 26;

/// The most keys of a ring.
const MOST_KEYS: u16 = 64;

/// The text of the ring of a seed.
pub fn make_ring(alloc: Global, spec: &KeySpec) -> Result<List<u8>, NoMemory>
    ensures text { IfOk result (λ ring. ring ≡ ring_text
        (ring_made spec.now.seed spec.now.ident spec.now.size)) }
    ensures len { IfOk result (λ ring. length ring ≡ 26 + 32 * spec.now.size) }
{
    let mut ring = Vec::with_capacity(alloc, KEYS_PLACE + 32 * spec.size as usize)?;
    ring.extend_from_slice(&TAG)?;
    ring.extend_from_slice(&spec.ident)?;
    put_u16(&mut ring, spec.size)?;
    for q in 0..spec.size {
        let key = keygen(&spec.seed, &spec.ident, u32::from(q));
        ring.extend_from_slice(&key)?;
    }
    Ok(List::from_vec(ring))
}

/// The account of a ring's text, whether or not the text has the form of one.
pub fn account_of(ring: &[u8]) -> Id
    ensures { result.0 ≡ sha256 ring.now }
{
    digest(ring)
}

/// How many bytes from the front on are those of the tag.
fn shared_with_tag(ring: &[u8]) -> usize
    ensures { result ≡ shared_len ring_tag ring.now }
{
    for (place, expected) in TAG.iter().enumerate() {
        if place == ring.len() || ring[place] != *expected {
            return place;
        }
    }
    TAG.len()
}

/// The bytes at a place.
fn array_at<const N: usize>(text: &[u8], at: usize) -> [u8; N]
    requires { at + N ≤ length text.now }
    ensures { result ≡ take N (drop at text.now) }
{
    let mut part = [0; N];
    part.copy_from_slice(&text[at..at + N]);
    part
}

/// How many keys the text says that it has.
fn said_size(ring: &[u8]) -> u16
    requires { 26 ≤ length ring.now }
    ensures { result ≡ said_keys ring.now }
{
    u16::from_be_bytes(array_at(ring, COUNT_PLACE))
}

/// How many keys the ring has, or the place of its first fault.
#[tactic(auto, unfolding(crate::specs::Rings::ring_size_of))]
pub(crate) fn ring_size(ring: &[u8]) -> Result<u16, u32>
    ensures size { result ≡ ring_size_of ring.now }
    ensures bytes { AreBytes ring.now }
{
    let shared = shared_with_tag(ring);
    if shared < TAG.len() {
        return Err(shared as u32);
    }
    if ring.len() < KEYS_PLACE {
        return Err(ring.len() as u32);
    }
    let size = said_size(ring);
    if size == 0 || MOST_KEYS < size {
        return Err(COUNT_PLACE as u32);
    }
    let end = KEYS_PLACE + 32 * size as usize;
    if ring.len() < end {
        return Err(ring.len() as u32);
    }
    if end < ring.len() {
        return Err(end as u32);
    }
    Ok(size)
}

/// The ident of a ring.
pub(crate) fn ident_of(ring: &[u8]) -> [u8; 16]
    requires { 26 ≤ length ring.now }
    ensures { result ≡ take 16 (drop 8 ring.now) }
{
    array_at(ring, TAG.len())
}

/// The key of a ring with that number.
pub(crate) fn key_at(ring: &[u8], q: usize) -> [u8; 32]
    requires { 26 + 32 * (q + 1) ≤ length ring.now }
    ensures { result ≡ take 32 (drop (26 + 32 * q) ring.now) }
{
    array_at(ring, KEYS_PLACE + 32 * q)
}
