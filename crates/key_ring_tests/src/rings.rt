//! The seed and the ident are those of the top level key of test case 2 in appendix F of RFC 8554.
//! The account and the envelope's digest were computed outside.

mod signers;

ghost use Rattle.std.specs.Prelude.{◌≡◌};

use dh_base::{BaseFault, Id, List, NoMemory, Refusal, digest};
use key_ring::*;
use std::alloc::Global;
use std::test::Fail;

const SEED: [u8; 32] = [
    0x55, 0x8b, 0x89, 0x66, 0xc4, 0x8a, 0xe9, 0xcb, 0x89, 0x8b, 0x42, 0x3c, 0x83, 0x44, 0x3a, 0xae,
    0x01, 0x4a, 0x72, 0xf1, 0xb1, 0xab, 0x5c, 0xc8, 0x5c, 0xf1, 0xd8, 0x92, 0x90, 0x3b, 0x54, 0x39,
];

const IDENT: [u8; 16] = [
    0xd0, 0x8f, 0xab, 0xd4, 0xa2, 0x09, 0x1f, 0xf0, 0xa8, 0xcb, 0x4e, 0xd8, 0x34, 0xe7, 0x45, 0x34,
];

const MESSAGE: &[u8] = b"pay ben";

/// The digest of the text of the ring of two keys.
const ACCOUNT: [u8; 32] = [
    0x5a, 0x6d, 0xfd, 0xcc, 0xb9, 0x4a, 0x6f, 0xa7, 0xc7, 0x81, 0x1d, 0x5e, 0xfd, 0x8f, 0xcb, 0x79,
    0xd7, 0xd8, 0x0b, 0x16, 0xaa, 0xb6, 0x60, 0x94, 0xd8, 0x30, 0xe6, 0x09, 0x99, 0x88, 0x50, 0x18,
];

/// The digest of the text of the envelope in which key number 1 signs the message.
const ENVELOPE_DIGEST: [u8; 32] = [
    0x9a, 0xb2, 0x60, 0x3a, 0xea, 0xa0, 0x55, 0x04, 0x0f, 0xff, 0x30, 0x6a, 0xa2, 0x48, 0xda, 0x1d,
    0x26, 0xb2, 0x2b, 0x5d, 0xc9, 0x2b, 0xb5, 0xcb, 0x83, 0x93, 0xde, 0x20, 0x67, 0xaa, 0xd7, 0xe3,
];

fn two_keys() -> KeySpec
    ensures { result.size ≡ 2 }
{
    KeySpec {
        seed: SEED,
        ident: IDENT,
        size: 2,
    }
}

/// The text of the envelope in which key number 1 signs the message.
fn text(alloc: Global) -> Result<Vec<u8>, Fail> {
    let env = make_envelope(alloc, &two_keys(), 1, MESSAGE)?;
    Ok(write_envelope(alloc, &env)?.into_vec())
}

#[test]
fn a_ring_has_an_account(rt: HostRuntime) -> Result<(), Fail> {
    let ring = make_ring(rt.alloc(), &two_keys())?;
    assert_eq!(rt; ring.len(), 90);
    assert_eq!(rt; account_of(ring.as_slice()), Id(ACCOUNT));
    Ok(())
}

#[test]
fn an_envelope_goes_through_its_text(rt: HostRuntime) -> Result<(), Fail> {
    let alloc = rt.alloc();
    let text = text(alloc)?;
    assert_eq!(rt; text.len(), 2289);
    assert_eq!(rt; digest(&text), Id(ENVELOPE_DIGEST));
    let env = read_envelope(alloc, &text)?;
    assert_eq!(rt; env.message.as_slice(), MESSAGE);
    assert_eq!(rt; write_envelope(alloc, &env)?.as_slice(), text.as_slice());
    let EnvelopeAt { env, next } = envelope_at(alloc, &text, 0)?;
    assert_eq!(rt; next as usize, text.len());
    assert_eq!(rt; write_envelope(alloc, &env)?.as_slice(), text.as_slice());
    Ok(())
}

#[test]
fn an_envelope_says_its_message_or_nothing(rt: HostRuntime) -> Result<(), Fail> {
    let alloc = rt.alloc();
    let mut env = make_envelope(alloc, &two_keys(), 1, MESSAGE)?;
    let account = Id(ACCOUNT);
    assert_eq!(rt; check(&env), Ok(Said { account, q: 1 }));
    env.q = 0;
    assert_eq!(rt; check(&env), Err(EnvFault::BadSignature));
    env.q = 2;
    assert_eq!(rt; check(&env), Err(EnvFault::KeyOutside { q: 2, n: 2 }));
    env.ring = List::from_vec(Vec::new(alloc));
    assert_eq!(rt; check(&env), Err(EnvFault::BadRing { at: 0 }));
    Ok(())
}

/// The text of the ring of two keys, cut or with a byte set.
fn ring_fault(alloc: Global, len: usize, place: usize, byte: u8) -> Result<Option<EnvFault>, Fail> {
    let mut env = make_envelope(alloc, &two_keys(), 1, MESSAGE)?;
    let mut ring = make_ring(alloc, &two_keys())?.into_vec();
    ring.push(0)?;
    ring.truncate(len);
    if place < ring.len() {
        ring[place] = byte;
    }
    env.ring = List::from_vec(ring);
    Ok(check(&env).err())
}

#[test]
fn a_ring_breaks_its_form_at_a_place(rt: HostRuntime) -> Result<(), Fail> {
    let alloc = rt.alloc();
    assert_eq!(rt;
        ring_fault(alloc, 90, 3, b'r')?,
        Some(EnvFault::BadRing { at: 3 })
    );
    assert_eq!(rt;
        ring_fault(alloc, 5, 99, 0)?,
        Some(EnvFault::BadRing { at: 5 })
    );
    assert_eq!(rt;
        ring_fault(alloc, 25, 99, 0)?,
        Some(EnvFault::BadRing { at: 25 })
    );
    assert_eq!(rt;
        ring_fault(alloc, 26, 25, 0)?,
        Some(EnvFault::BadRing { at: 24 })
    );
    assert_eq!(rt;
        ring_fault(alloc, 90, 25, 65)?,
        Some(EnvFault::BadRing { at: 24 })
    );
    assert_eq!(rt;
        ring_fault(alloc, 89, 99, 0)?,
        Some(EnvFault::BadRing { at: 89 })
    );
    assert_eq!(rt;
        ring_fault(alloc, 91, 99, 0)?,
        Some(EnvFault::BadRing { at: 90 })
    );
    Ok(())
}

/// The first fault of the text of the envelope, with a byte set, and cut.
fn form_fault(alloc: Global, len: u16, place: usize, byte: u8) -> Result<Option<EnvFault>, Fail> {
    let mut text = text(alloc)?;
    text.push(0)?;
    if place < text.len() {
        text[place] = byte;
    }
    text.truncate(len as usize);
    Ok(read_envelope(alloc, &text).err())
}

#[test]
fn an_envelope_breaks_its_form_at_a_field(rt: HostRuntime) -> Result<(), Fail> {
    let alloc = rt.alloc();
    assert_eq!(rt;
        form_fault(alloc, 3, 99, 0)?,
        Some(EnvFault::BadForm { at: 0 })
    );
    assert_eq!(rt;
        form_fault(alloc, 93, 99, 0)?,
        Some(EnvFault::BadForm { at: 4 })
    );
    assert_eq!(rt;
        form_fault(alloc, 2289, 0, 1)?,
        Some(EnvFault::BadForm { at: 4 })
    );
    assert_eq!(rt;
        form_fault(alloc, 97, 99, 0)?,
        Some(EnvFault::BadForm { at: 94 })
    );
    assert_eq!(rt;
        form_fault(alloc, 2277, 9999, 0)?,
        Some(EnvFault::BadForm { at: 98 })
    );
    assert_eq!(rt;
        form_fault(alloc, 2289, 101, 4)?,
        Some(EnvFault::BadForm { at: 98 })
    );
    assert_eq!(rt;
        form_fault(alloc, 2281, 9999, 0)?,
        Some(EnvFault::BadForm { at: 2278 })
    );
    assert_eq!(rt;
        form_fault(alloc, 2289, 2280, 65)?,
        Some(EnvFault::BadForm { at: 2278 })
    );
    assert_eq!(rt;
        form_fault(alloc, 2288, 9999, 0)?,
        Some(EnvFault::BadForm { at: 2282 })
    );
    assert_eq!(rt;
        form_fault(alloc, 2290, 9999, 0)?,
        Some(EnvFault::BadForm { at: 2289 })
    );
    assert_eq!(rt; form_fault(alloc, 2289, 9999, 0)?, None);
    Ok(())
}

#[test]
fn faults_are_told(rt: HostRuntime) -> Result<(), Fail> {
    let alloc = rt.alloc();
    let outside = EnvFault::KeyOutside { q: 7, n: 2 };
    let form = EnvFault::from(BaseFault::Short { at: 5 });
    let memory = EnvFault::from(NoMemory);
    let text = format!(in alloc; "{outside}, {form}, {memory}")?;
    assert_eq!(rt; text.as_str(), "3 KeyOutside 7 2, 1 BadForm 5, 5 NoMemory");
    Ok(())
}
