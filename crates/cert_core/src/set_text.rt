//! The texts of sets.

ghost use Rattle.std.specs.Prelude.{◌≡◌, ◌<◌, ◌≤◌, ◌^◌, ◌+◌, ◌*◌, ◌++◌, [], List, ℕ, Ok, length, take, drop, IfOk, IfSome, OnOk};
ghost use Rattle.std.specs.List.{flat_map};
ghost use Rattle.cert_core.specs.Sets.{SetTold, IsSet, set_text, id_of_set, id_bytes, is_among};
ghost use Rattle.cert_core.specs.SetReading.{set_of, set_behind_tag, accounts_in, first_twice};
ghost use Rattle.std.specs.Int.{w16, w32, from_be_bytes, to_be_bytes};
ghost use Rattle.sha2.specs.Hashers.{Holds256};

use crate::set::{MOST_DEVIATING, MOST_SEATS, Set};
use crate::set_fault::SetFault;
use dh_base::{Id, List, NoMemory, put_id, put_u16, put_u32};
use sha2::{Digest, Sha256};
use std::alloc::Global;

/// What the text of a set begins with.
const TAG: &[u8; 8] = b"CCDSET01";

/// The bytes before the accounts.
const HEAD_LEN: usize = 14;

/// Appends accounts.
fn put_accounts(out: &mut Vec<u8>, accounts: &[Id]) -> Result<(), NoMemory>
    ensures { OnOk result (out.new.items ≡ out.old.items ++ flat_map id_bytes accounts.now) }
{
    for account in accounts {
        put_id(out, account)?;
    }
    Ok(())
}

/// The text of a set.
pub fn write_set(alloc: Global, set: &Set) -> Result<List<u8>, NoMemory>
    ensures { IfOk result (λ text. text ≡ set_text set.now) }
{
    let mut text = Vec::new(alloc);
    text.extend_from_slice(TAG)?;
    put_u32(&mut text, set.epoch)?;
    put_u16(&mut text, set.f)?;
    put_accounts(&mut text, set.accounts())?;
    Ok(List::from_vec(text))
}

/// Goes on with the hash of a text by these accounts.
fn hash_accounts(hasher: &mut Sha256, accounts: &[Id])
    ensures { (before : List ℕ) → Holds256 hasher.old before
        → Holds256 hasher.new (before ++ flat_map id_bytes accounts.now) }
{
    for account in accounts {
        hasher.update(account.0.as_slice());
    }
}

/// A hasher of a tag and of what stands behind it in the text of a set, up to the accounts.
fn head_hasher(tag: &[u8; 8], epoch: u32, f: u16) -> Sha256
    ensures { Holds256 result (tag.now ++ to_be_bytes w32 epoch ++ to_be_bytes w16 f) }
{
    let mut hasher = Sha256::new();
    hasher.update(tag.as_slice());
    hasher.update(epoch.to_be_bytes().as_slice());
    hasher.update(f.to_be_bytes().as_slice());
    hasher
}

/// The id of a set: the digest of its text.
pub fn set_id(set: &Set) -> Id
    ensures { result ≡ id_of_set set.now }
{
    let mut hasher = head_hasher(TAG, set.epoch, set.f);
    hash_accounts(&mut hasher, set.accounts());
    Id(hasher.finalize())
}

/// The account at a place of the accounts' bytes.
fn account_at(bytes: &[u8], seat: usize) -> Id
    requires { 32 * seat + 32 ≤ length bytes.now }
    ensures { result.0 ≡ take 32 (drop (32 * seat) bytes.now) }
{
    let mut account = [0; 32];
    account.copy_from_slice(&bytes[32 * seat..32 * seat + 32]);
    Id(account)
}

/// The accounts that the bytes are, and then zeros.
#[tactic(auto, using(crate::proofs::Accounts::accounts_next))]
fn read_accounts(bytes: &[u8], count: usize) -> [Id; MOST_SEATS]
    requires few { count ≤ 16 }
    requires len { length bytes.now ≡ 32 * count }
    ensures { take count result ≡ accounts_in count bytes.now }
{
    let mut accounts = [Id([0; 32]); MOST_SEATS];
    for seat in 0..count {
        accounts[seat] = account_at(bytes, seat);
    }
    accounts
}

/// Whether the account is one of these.
fn has_account(accounts: &[Id], account: &Id) -> bool
    ensures { result ≡ is_among accounts.now account.now }
{
    accounts.iter().any(|other| other == account)
}

/// The least seat whose account an earlier seat has.
fn seat_twice(accounts: &[Id]) -> Option<usize>
    ensures seat { result ≡ first_twice [] accounts.now }
    ensures within { IfSome result (λ seat. seat < length accounts.now) }
{
    for (seat, account) in accounts.iter().enumerate() {
        if has_account(&accounts[..seat], account) {
            return Some(seat);
        }
    }
    None
}

/// The set of the bytes behind the tag.
fn read_behind_tag(text: &[u8]) -> Result<Set, SetFault>
    requires len { 14 ≤ length text.now }
    requires most { length text.now < 2 ^ 32 }
    ensures { result ≡ set_behind_tag (from_be_bytes w32 (take 4 (drop 8 text.now)))
        (from_be_bytes w16 (take 2 (drop 12 text.now))) text.now }
{
    let epoch = u32::from_be_bytes([text[8], text[9], text[10], text[11]]);
    let f = u16::from_be_bytes([text[12], text[13]]);
    if MOST_DEVIATING < f {
        return Err(SetFault::BadF { f });
    }
    let count = 3 * f as usize + 1;
    if text.len() != HEAD_LEN + 32 * count {
        return Err(SetFault::BadLength {
            len: text.len() as u32,
        });
    }
    let seats = read_accounts(&text[HEAD_LEN..], count);
    match seat_twice(&seats[..count]) {
        Some(seat) => Err(SetFault::SeatTwice { seat: seat as u16 }),
        None => Ok(Set { epoch, f, seats }),
    }
}

/// The set that all of the bytes are.
#[tactic(auto, unfolding(crate::specs::SetReading::set_of))]
fn read_whole(text: &[u8]) -> Result<Set, SetFault>
    requires { length text.now < 2 ^ 32 }
    ensures { result ≡ set_of text.now }
{
    if text.len() < 8 || text[..8] != TAG[..] {
        return Err(SetFault::BadTag);
    }
    if text.len() < HEAD_LEN {
        return Err(SetFault::BadLength {
            len: text.len() as u32,
        });
    }
    read_behind_tag(text)
}

/// The set that the bytes spell, all of the bytes.
pub fn read_set(text: &[u8]) -> Result<Set, SetFault>
    requires { length text.now < 2 ^ 32 }
    // What is read keeps what every set keeps, and is spelled so.
    ensures found { IfOk result (λ set. IsSet set × (text.now ≡ set_text set)) }
    // What is spelled so is read.
    ensures only { (set : SetTold) → IsSet set → text.now ≡ set_text set → result ≡ Ok set }
    // Which fault is the first.
    ensures exact { result ≡ set_of text.now }
{
    read_whole(text)
}
