//! Signing a message (RFC 8554, section 4.5).

ghost use Rattle.std.specs.Prelude.{◌≡◌};
ghost use Rattle.ots_core.specs.Keys as keys;

use crate::chain::SECRET;
use crate::coefficients::{coefficients, with_checksum};
use crate::hashing::{hash_at, hasher};
use crate::key::Key;
use crate::ots_sig::OtsSig;
use crate::walks::{Ways, secret_elements, walk};
use sha2::{Digest, Sha256};

/// D_MESG: the kind of the text of which a message digest is the hash.
const MESSAGE: u16 = 0x8181;

/// What stands in the place of a chain's number where a randomizer is made.
const RANDOMIZER: u16 = 0xfffd;

/// The digest Q of a message under the randomizer `c`.
pub(crate) fn message_digest(ident: &[u8; 16], q: u32, c: &[u8; 32], msg: &[u8]) -> [u8; 32]
    ensures { result ≡ keys.message_digest_of ident.now q c.now msg.now }
{
    let mut hasher = hasher(ident, q, MESSAGE);
    hasher.update(c.as_slice());
    hasher.update(msg);
    hasher.finalize()
}

/// The signature of a message by key number `q` of the seed. A key that signs two different
/// messages is broken, so its holder sees to it that it signs one.
pub fn sign(seed: &[u8; 32], ident: &[u8; 16], q: u32, msg: &[u8]) -> OtsSig
    ensures { result ≡ keys.signature_of seed.now ident.now q msg.now }
{
    let c = hash_at(ident, q, RANDOMIZER, SECRET, seed);
    let text = with_checksum(&message_digest(ident, q, &c, msg));
    let ways = Ways {
        from: [0; 67],
        to: coefficients(&text),
    };
    let key = Key::new(ident, q);
    let y = walk(&key, &ways, &secret_elements(seed, &key));
    OtsSig { c, y }
}
