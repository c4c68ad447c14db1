//! Signers whose texts stand in a file, or in a database in memory.

ghost use Rattle.std.specs.Prelude.{◌≡◌, ◌≤◌, length};

use crate::folders::make_folder;
use keeper_core::Store;
use keeper_sql::{SqlKeeper, SqlStore};
use key_ring::{Envelope, KeySpec, SignFault};
use ots_core::write_sig;
use signer_sql::{load, sign};
use std::alloc::Global;
use std::fs;
use std::test::Fail;

const FOLDER: &str = "signer_sql_signers";

fn two_keys() -> KeySpec
    ensures { result.size ≡ 2 }
{
    KeySpec {
        seed: [7; 32],
        ident: [9; 16],
        size: 2,
    }
}

/// Loads the signer of a name from its file and has it sign the text. How many texts it has then
/// signed stands beside the answer.
fn signed(
    alloc: Global,
    store: &mut SqlStore,
    text: &[u8],
) -> Result<(Result<Envelope, SignFault>, u16), Fail>
    requires { length text.now ≤ 16384 }
{
    let mut keeper = store.keep("alice")?;
    let mut signer = load(alloc, &two_keys(), &mut keeper)?;
    let answer = sign(&mut signer, &mut keeper, text, 0);
    store.back("alice", keeper);
    Ok((answer, signer.used()))
}

/// Whether the two are one envelope.
fn are_same(env: &Envelope, other: &Envelope) -> bool {
    env.q == other.q
        && env.ring.as_slice() == other.ring.as_slice()
        && env.message.as_slice() == other.message.as_slice()
        && write_sig(&env.sig).as_slice() == write_sig(&other.sig).as_slice()
}

#[test]
fn a_signer_that_is_loaded_from_its_file_signs_one_text_per_key(
    rt: HostRuntime,
) -> Result<(), Fail> {
    make_folder(&rt, FOLDER)?;
    let mut store = SqlStore::new(&rt, FOLDER)?;
    let (first, _) = signed(rt.alloc(), &mut store, b"a")?;
    let (second, _) = signed(rt.alloc(), &mut store, b"b")?;
    let (again, _) = signed(rt.alloc(), &mut store, b"a")?;
    let (third, used) = signed(rt.alloc(), &mut store, b"c")?;
    let (first, again) = (first?, again?);
    assert_eq!(rt; first.q, 0);
    assert_eq!(rt; second?.q, 1);
    assert!(rt; are_same(&again, &first));
    assert_eq!(rt;
        third.err(),
        Some(SignFault::KeysSpent { used: 2, size: 2 })
    );
    assert_eq!(rt; used, 2);
    assert_eq!(rt; store.faults(), 0);
    fs::remove_dir_all(&rt, FOLDER)?;
    Ok(())
}

#[test]
fn a_signer_finds_its_texts_in_the_database(rt: HostRuntime) -> Result<(), Fail> {
    let alloc = rt.alloc();
    let mut keeper = SqlKeeper::in_memory(alloc, &mut 0)?;
    let mut signer = load(alloc, &two_keys(), &mut keeper)?;
    assert_eq!(rt; signer.used(), 0);
    sign(&mut signer, &mut keeper, b"a", 0)?;
    let later = load(alloc, &two_keys(), &mut keeper)?;
    assert_eq!(rt; later.used(), 1);
    assert_eq!(rt; later.used_text(0), Some(b"a".as_slice()));
    Ok(())
}
