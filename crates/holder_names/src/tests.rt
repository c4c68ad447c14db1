//! The digests were computed outside, by a program of its own.

ghost use Rattle.std.specs.Prelude.{◌≡◌, IfOk};

use super::*;
use dh_base::{Id, Name, digest};
use key_ring::{check, write_envelope};
use std::test::Fail;

/// The account of alice with two keys.
const ACCOUNT: [u8; 32] = [
    0x51, 0x0d, 0xa5, 0xe1, 0x45, 0xa8, 0xdd, 0xce, 0x8c, 0x5a, 0x2a, 0xfc, 0xdf, 0xdf, 0xf1, 0xf5,
    0x75, 0x78, 0x9f, 0xab, 0xe5, 0x33, 0xb9, 0x48, 0x79, 0x80, 0xbb, 0xc0, 0xed, 0x89, 0xfa, 0x24,
];

/// The digest of the text of the envelope in which the key of number 1 signs `hello`.
const ENVELOPE_DIGEST: [u8; 32] = [
    0x3f, 0x88, 0xdf, 0xe6, 0x7e, 0xf8, 0x9f, 0x8f, 0xe1, 0x22, 0xfb, 0x25, 0xaa, 0x0d, 0x45, 0xf3,
    0xa1, 0x99, 0x25, 0xc6, 0x85, 0xca, 0x74, 0x1e, 0x75, 0x9e, 0x1b, 0x4a, 0x32, 0x1f, 0x56, 0x49,
];

/// Alice with two keys.
fn alice() -> Result<Holder, Fail>
    ensures { IfOk result (λ holder. holder.size ≡ 2) }
{
    let name = Name::from_bytes(b"alice")?;
    Ok(Holder { name, size: 2 })
}

#[test]
fn the_account_of_a_name(rt: HostRuntime) -> Result<(), Fail> {
    let alice = alice()?;
    assert_eq!(rt; alice.account(rt.alloc())?, Id(ACCOUNT));
    assert_eq!(rt; alice.key_spec().size, 2);
    Ok(())
}

#[test]
fn an_envelope_of_a_name(rt: HostRuntime) -> Result<(), Fail> {
    let alloc = rt.alloc();
    let alice = alice()?;
    let env = alice.sign(alloc, 1, b"hello")?;
    let text = write_envelope(alloc, &env)?;
    assert_eq!(rt; digest(text.as_slice()), Id(ENVELOPE_DIGEST));
    let said = check(&env)?;
    assert_eq!(rt; said.account, Id(ACCOUNT));
    assert_eq!(rt; said.q, 1);
    Ok(())
}

#[test]
fn the_first_name_of_an_id_is_printed(rt: HostRuntime) -> Result<(), Fail> {
    let alloc = rt.alloc();
    let alice = Name::from_bytes(b"alice")?;
    let bob = Name::from_bytes(b"bob")?;
    let mut directory = Directory::new(alloc);
    directory.add(&Id([0x11; 32]), &alice)?;
    directory.add(&Id([0x11; 32]), &bob)?;
    let called = directory.label(&Id([0x11; 32]));
    assert_eq!(rt; format!(in alloc; "{called}")?.as_str(), "alice");
    let unnamed = directory.label(&Id([0x2a; 32]));
    assert_eq!(rt;
        format!(in alloc; "{unnamed}")?.as_str(),
        "2a2a2a2a2a2a2a2a2a2a2a2a2a2a2a2a2a2a2a2a2a2a2a2a2a2a2a2a2a2a2a2a"
    );
    Ok(())
}
