//! The keys and the account of a name.

ghost use Rattle.std.specs.Prelude.{◌≡◌, ◌+◌, ◌*◌, ◌<◌, ◌≤◌, ◌++◌, codes, length, IfOk};
ghost use Rattle.sha2.specs.Sha256.{sha256};
ghost use Rattle.key_ring.specs.Saying.{Says};
ghost use Rattle.holder_names.specs.Holders.{seed_of, ident_of, account_of as account_made, signed_of};

use dh_base::{Id, Name, NoMemory};
use key_ring::{Envelope, KeySpec, account_of, make_envelope, make_ring};
use sha2::{Digest, Sha256};
use std::alloc::Global;

/// What the seed of a name is the digest of, before the name.
const SEED_TAG: &[u8; 8] = b"CCDSEED1";

/// What the ident of a name begins the digest of, before the name.
const IDENT_TAG: &[u8; 8] = b"CCDIDENT";

/// The holder of a name, whose ring has that many keys: 1 to 64.
#[derive(Clone, Copy)]
pub struct Holder {
    pub name: Name,
    pub size: u16,
    pub ghost some: { 1 ≤ size },
    pub ghost few: { size ≤ 64 },
}

/// The digest of a tag and a name.
fn digest_behind(tag: &[u8; 8], name: &Name) -> [u8; 32]
    ensures { result ≡ sha256 (tag.now ++ name.now) }
{
    let mut hasher = Sha256::new();
    hasher.update(tag);
    hasher.update(name.as_bytes());
    hasher.finalize()
}

fn ident_of(name: &Name) -> [u8; 16]
    ensures { result ≡ ident_of name.now }
{
    let hash = digest_behind(IDENT_TAG, name);
    let mut ident = [0; 16];
    ident.copy_from_slice(&hash[..16]);
    ident
}

impl Holder {
    /// What the ring is made from.
    pub fn key_spec(&self) -> KeySpec
        ensures seed { result.seed ≡ seed_of self.now.name }
        ensures ident { result.ident ≡ ident_of self.now.name }
        ensures size { result.size ≡ self.now.size }
    {
        KeySpec {
            seed: digest_behind(SEED_TAG, &self.name),
            ident: ident_of(&self.name),
            size: self.size,
        }
    }

    /// The account.
    pub fn account(&self, alloc: Global) -> Result<Id, NoMemory>
        ensures { IfOk result (λ account. account ≡ account_made self.now.name self.now.size) }
    {
        let ring = make_ring(alloc, &self.key_spec())?;
        Ok(account_of(ring.as_slice()))
    }

    /// The envelope in which the key of number `q` signs the message. Nothing keeps it.
    pub fn sign(&self, alloc: Global, q: u32, message: &[u8]) -> Result<Envelope, NoMemory>
        requires key { q < self.now.size }
        requires message { length message.now ≤ 16384 }
        ensures envelope { IfOk result (λ env. env
            ≡ signed_of self.now.name self.now.size q message.now) }
        ensures says { IfOk result (λ env. Says env
            (account_made self.now.name self.now.size).0 q message.now) }
        ensures ring_len { IfOk result (λ env. length env.ring ≡ 26 + 32 * self.now.size) }
    {
        make_envelope(alloc, &self.key_spec(), q, message)
    }
}
