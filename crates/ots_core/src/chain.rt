//! The chains of a key, in which a value is hashed again and again (RFC 8554, sections 4.3 to 4.6).

ghost use Rattle.std.specs.Prelude.{◌≡◌};
ghost use Rattle.ots_core.specs.Keys as keys;

use crate::hashing::hasher;
use sha2::Digest;

/// How many chains a key has: p.
pub(crate) const CHAINS: u16 = 67;

/// How many steps a chain has: 2^w - 1.
pub(crate) const STEPS: u16 = 15;

/// The byte of what comes from the seed: a secret element or a randomizer.
pub(crate) const SECRET: u8 = 0xff;

/// D_PBLC: the kind of the text of which a public key is the hash.
const PUBLIC_KEY: u16 = 0x8080;

/// The hash over the ends of the chains.
pub(crate) fn ends_hash(ident: &[u8; 16], q: u32, ends: &[[u8; 32]; 67]) -> [u8; 32]
    ensures { result ≡ keys.ends_hash ident.now q ends.now }
{
    let mut hasher = hasher(ident, q, PUBLIC_KEY);
    for i in 0..67 {
        hasher.update(ends[i].as_slice());
    }
    hasher.finalize()
}
