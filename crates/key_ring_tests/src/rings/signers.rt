//! Signers over a keeper in memory. The account and the digests were computed outside.

ghost use Rattle.std.specs.Prelude.{◌≡◌, ◌≤◌, length};
ghost use Rattle.std.specs.Result.{IsErrOf};
ghost use Rattle.keeper_core.specs.Knowing.{IsUnarmed};
ghost use Rattle.keeper_core.specs.Memory.{known_of};
ghost use Rattle.key_ring.specs.UsedTexts.{IsBacked};

use super::{IDENT, SEED};
use dh_base::{Id, NoMemory, Refusal};
use keeper_core::{Arm, Batch, KeepFault, Keeper, MemKeeper, StoreFault};
use key_ring::{Envelope, KeySpec, Said, SignFault, Signer, check};
use ots_core::write_sig;
use std::alloc::Global;
use std::process::Abort;
use std::test::Fail;

/// The digest of the text of the ring of three keys.
const ACCOUNT: [u8; 32] = [
    0x26, 0xf1, 0x23, 0xae, 0xbc, 0xff, 0x3e, 0x09, 0xb5, 0x5a, 0xf3, 0x9d, 0xdb, 0xca, 0xdb, 0xb1,
    0x5f, 0xd3, 0xec, 0x31, 0x20, 0xcd, 0x6d, 0x76, 0xa7, 0x68, 0x5f, 0xe6, 0x3b, 0x1d, 0xbf, 0xf5,
];

fn three_keys() -> KeySpec
    ensures { result.size ≡ 3 }
{
    KeySpec {
        seed: SEED,
        ident: IDENT,
        size: 3,
    }
}

/// Whether the two are one envelope.
fn are_same(env: &Envelope, other: &Envelope) -> bool {
    env.q == other.q
        && env.ring.as_slice() == other.ring.as_slice()
        && env.message.as_slice() == other.message.as_slice()
        && write_sig(&env.sig).as_slice() == write_sig(&other.sig).as_slice()
}

/// Signs a text, which is to be signed by that key.
fn sign_by(
    rt: &impl Abort,
    signer: &mut Signer,
    keeper: &mut MemKeeper,
    text: &[u8],
    reserve: u16,
    q: u32,
) -> Result<Envelope, Fail>
    requires reserve { reserve ≤ signer.old.spec.size }
    requires text { length text.now ≤ 16384 }
    requires backed { IsBacked (known_of keeper.old) signer.old.texts }
    ensures backed { IsBacked (known_of keeper.new) signer.new.texts }
    ensures spec { signer.new.spec ≡ signer.old.spec }
{
    let env = signer.sign(keeper, text, reserve)?;
    assert_eq!(rt; env.q, q);
    Ok(env)
}

/// Asks for a signature, which is to be refused so.
fn refuse(
    rt: &impl Abort,
    signer: &mut Signer,
    keeper: &mut MemKeeper,
    text: &[u8],
    reserve: u16,
    fault: SignFault,
)
    requires reserve { reserve ≤ signer.old.spec.size }
    requires text { length text.now ≤ 16384 }
    requires backed { IsBacked (known_of keeper.old) signer.old.texts }
    ensures backed { IsBacked (known_of keeper.new) signer.new.texts }
    ensures spec { signer.new.spec ≡ signer.old.spec }
{
    let refused = signer.sign(keeper, text, reserve).err();
    assert_eq!(rt; refused, Some(fault));
}

/// Two texts are signed, a key is held back, and the third text meets the stop.
fn sign_to_stop(
    rt: &impl Abort,
    signer: &mut Signer,
    keeper: &mut MemKeeper,
    stop: Arm,
) -> Result<Envelope, Fail>
    requires size { signer.old.spec.size ≡ 3 }
    requires backed { IsBacked (known_of keeper.old) signer.old.texts }
{
    let first = sign_by(rt, signer, keeper, b"a", 1, 0)?;
    sign_by(rt, signer, keeper, b"b", 1, 1)?;
    let spent = SignFault::KeysSpent { used: 2, size: 3 };
    refuse(rt, signer, keeper, b"c", 1, spent);
    let again = sign_by(rt, signer, keeper, b"a", 1, 0)?;
    assert!(rt; are_same(&again, &first));
    keeper.arm(stop);
    let fault = StoreFault::Keeper;
    refuse(rt, signer, keeper, b"c", 0, SignFault::Store { fault });
    Ok(first)
}

/// The third text meets the stop. That many texts are signed once the keeper and the signer are
/// started again.
fn check_stop(rt: &impl Abort, alloc: Global, stop: Arm, used: u16) -> Result<(), Fail> {
    let spec = three_keys();
    let mut keeper = MemKeeper::new(alloc);
    let mut signer = Signer::load(alloc, &spec, &mut keeper)?;
    let first = sign_to_stop(rt, &mut signer, &mut keeper, stop)?;
    keeper.restart();
    let mut later = Signer::load(alloc, &spec, &mut keeper)?;
    assert_eq!(rt; later.used(), used);
    sign_by(rt, &mut later, &mut keeper, b"c", 0, 2)?;
    let again = sign_by(rt, &mut later, &mut keeper, b"a", 0, 0)?;
    assert!(rt; are_same(&again, &first));
    Ok(())
}

#[test]
fn signer_one_text_per_key(rt: HostRuntime) -> Result<(), Fail> {
    check_stop(&rt, rt.alloc(), Arm::StopAfter, 3)?;
    check_stop(&rt, rt.alloc(), Arm::StopBefore, 2)
}

#[test]
fn what_is_signed_is_said(rt: HostRuntime) -> Result<(), Fail> {
    let mut keeper = MemKeeper::new(rt.alloc());
    let mut signer = Signer::load(rt.alloc(), &three_keys(), &mut keeper)?;
    let account = Id(ACCOUNT);
    assert_eq!(rt; signer.account(), account);
    assert_eq!(rt; signer.size(), 3);
    assert!(rt; signer.used_text(0).is_none());
    signer.sign(&mut keeper, b"pay ben", 0)?;
    let env = signer.sign(&mut keeper, b"pay ann", 0)?;
    assert_eq!(rt; check(&env), Ok(Said { account, q: 1 }));
    assert_eq!(rt; env.message.as_slice(), b"pay ann".as_slice());
    assert_eq!(rt; signer.used(), 2);
    assert_eq!(rt; signer.used_text(1), Some(b"pay ann".as_slice()));
    Ok(())
}

#[test]
fn a_text_that_is_not_kept_has_no_key(rt: HostRuntime) -> Result<(), Fail> {
    let mut keeper = MemKeeper::new(rt.alloc());
    let spec = three_keys();
    keeper.arm(Arm::FailNext);
    let failed = Signer::load(rt.alloc(), &spec, &mut keeper).err();
    assert_eq!(rt; failed, Some(StoreFault::Keeper));
    let mut signer = Signer::load(rt.alloc(), &spec, &mut keeper)?;
    keeper.arm(Arm::FailNext);
    let failed = signer.sign(&mut keeper, b"a", 0).err();
    let fault = StoreFault::Keeper;
    assert_eq!(rt; failed, Some(SignFault::Store { fault }));
    assert_eq!(rt; signer.used(), 0);
    let env = signer.sign(&mut keeper, b"b", 0)?;
    assert_eq!(rt; env.q, 0);
    Ok(())
}

/// The refusal of a signer of three keys over a keeper with these keys in the table of signed
/// texts.
fn load_fault(alloc: Global, keys: &[&[u8]]) -> Result<Option<StoreFault>, Fail> {
    let mut batch = Batch::new(alloc);
    for key in keys {
        batch.put(8, key, b"text")?;
    }
    let mut keeper = MemKeeper::new(alloc);
    keeper.commit(&batch)?;
    Ok(Signer::load(alloc, &three_keys(), &mut keeper).err())
}

/// A fault that names the row of that key, with the digest of the key in hexadecimal.
fn check_row(rt: &impl Abort, alloc: Global, keys: &[&[u8]], digest: &str) -> Result<(), Fail> {
    let Some(fault) = load_fault(alloc, keys)? else {
        return Err(Fail::from("no row is amiss"));
    };
    let text = format!(in alloc; "{fault}")?;
    let expected = format!(in alloc; "2 BadRow 8 {digest}")?;
    assert_eq!(rt; text.as_str(), expected.as_str());
    Ok(())
}

#[test]
fn the_first_row_amiss_is_named(rt: HostRuntime) -> Result<(), Fail> {
    let alloc = rt.alloc();
    let rows: [&[u8]; 4] = [b"\0\0\0\0", b"\0\0\0\x01", b"\0\0\0\x02", b"\0\0\0\x03"];
    assert_eq!(rt; load_fault(alloc, &rows[..0])?, None);
    assert_eq!(rt; load_fault(alloc, &rows[..3])?, None);
    let fourth = "88185d128d9922e0e6bcd32b07b6c7f20f27968eab447a1d8d1cdf250f79f7d3";
    check_row(&rt, alloc, &rows, fourth)?;
    let gap = "b40711a88c7039756fb8a73827eabe2c0fe5a0346ca7e0a104adc0fc764f528d";
    check_row(&rt, alloc, &rows[1..], gap)?;
    let short = "709e80c88487a2411e1ee4dfb9f22a861492d20c4765150c0c794abd70f8147c";
    check_row(&rt, alloc, &[b"\0\0\0"], short)
}

#[test]
fn refusals_of_signers_are_told(rt: HostRuntime) -> Result<(), Fail> {
    let spent = SignFault::KeysSpent { used: 2, size: 3 };
    let kept = SignFault::from(KeepFault::Failed);
    let memory = SignFault::from(NoMemory);
    let text = format!(in rt.alloc(); "{spent}, {kept}, {memory}")?;
    assert_eq!(rt;
        text.as_str(),
        "1 KeysSpent 2 3, 2 Store 1 Keeper, 2 Store 3 NoMemory"
    );
    assert!(rt; kept.telling(1).is_some());
    assert!(rt; kept.telling(2).is_none());
    assert!(rt; spent.telling(1).is_none());
    Ok(())
}

/// Loads a signer over any keeper and signs a text. A keeper to which nothing is to come does not
/// fail it.
fn sign_once<K: Keeper>(
    alloc: Global,
    spec: &KeySpec,
    keeper: &mut K,
    text: &[u8],
) -> Result<Envelope, SignFault>
    requires { length text.now ≤ 16384 }
    ensures fine { IsUnarmed (K.known keeper.old)
        → ¬ (IsErrOf result (SignFault.Store StoreFault.Keeper)) }
    ensures unarmed { IsUnarmed (K.known keeper.old) → IsUnarmed (K.known keeper.new) }
{
    let mut signer = Signer::load(alloc, spec, keeper)?;
    signer.sign(keeper, text, 0)
}

#[test]
fn a_caller_of_any_keeper_signs(rt: HostRuntime) -> Result<(), Fail> {
    let alloc = rt.alloc();
    let mut keeper = MemKeeper::new(alloc);
    let env = sign_once(alloc, &three_keys(), &mut keeper, b"a")?;
    assert_eq!(rt; env.q, 0);
    let env = sign_once(alloc, &three_keys(), &mut keeper, b"b")?;
    assert_eq!(rt; env.q, 1);
    assert_eq!(rt; keeper.faults(), 0);
    assert_eq!(rt; keeper.looked(), 3);
    Ok(())
}
