//! The hashes of RFC 8554. Each begins with the ident of the key, its number, and two bytes that
//! tell hashes of one kind from those of another.

ghost use Rattle.std.specs.Prelude.{◌≡◌, ◌++◌, ◌∷◌};
ghost use Rattle.std.specs.Int.{w16, w32, to_be_bytes};
ghost use Rattle.sha2.specs.Hashers.{Holds256};
ghost use Rattle.ots_core.specs.Chains as specs;

use crate::part::write_part;
use sha2::{Digest, Sha256};

/// The bytes from which a step of a chain or a secret element is hashed.
fn text_at(ident: &[u8; 16], q: u32, i: u16, byte: u8, value: &[u8; 32]) -> [u8; 55]
    ensures { result ≡ ident.now ++ to_be_bytes w32 q ++ to_be_bytes w16 i ++ (byte ∷ value.now) }
{
    let mut text = [0; 55];
    write_part(&mut text, 0, ident);
    write_part(&mut text, 16, &q.to_be_bytes());
    write_part(&mut text, 20, &i.to_be_bytes());
    write_part(&mut text, 22, &[byte]);
    write_part(&mut text, 23, value);
    text
}

/// The hash of a value at chain `i`, with a byte of its own before it.
pub(crate) fn hash_at(ident: &[u8; 16], q: u32, i: u16, byte: u8, value: &[u8; 32]) -> [u8; 32]
    ensures { result ≡ specs.hash_at ident.now q i byte value.now }
{
    Sha256::digest(&text_at(ident, q, i, byte, value)[..])
}

/// A hasher of a text of the key, with the two bytes that tell what it is.
pub(crate) fn hasher(ident: &[u8; 16], q: u32, kind: u16) -> Sha256
    ensures { Holds256 result (ident.now ++ to_be_bytes w32 q ++ to_be_bytes w16 kind) }
{
    let mut hasher = Sha256::new();
    hasher.update(ident.as_slice());
    hasher.update(q.to_be_bytes().as_slice());
    hasher.update(kind.to_be_bytes().as_slice());
    hasher
}
