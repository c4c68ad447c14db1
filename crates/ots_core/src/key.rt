//! Keys by their numbers.

ghost use Rattle.std.specs.Prelude.{◌≡◌, ◌++◌};
ghost use Rattle.std.specs.Int.{w32, to_be_bytes};
ghost use Rattle.ots_core.specs.Walks.{IsKey};

use crate::part::write_part;
use hash_lanes::Stem;

/// A key: the ident under which it stands, and its number there. Each step of its chains hashes a
/// text that begins with these.
#[derive(Clone, Copy, Drop)]
pub(crate) struct Key {
    pub(crate) ident: [u8; 16],
    pub(crate) q: u32,
    pub(crate) stem: Stem,
}

impl Key {
    pub(crate) fn new(ident: &[u8; 16], q: u32) -> Key
        ensures key { IsKey result }
        ensures ident { result.ident ≡ ident.now }
        ensures q { result.q ≡ q }
    {
        Key {
            ident: *ident,
            q,
            stem: Stem::new(&stem_bytes(ident, q)),
        }
    }
}

/// The bytes with which the texts begin.
fn stem_bytes(ident: &[u8; 16], q: u32) -> [u8; 20]
    ensures { result ≡ ident.now ++ to_be_bytes w32 q }
{
    let mut bytes = [0; 20];
    write_part(&mut bytes, 0, ident);
    write_part(&mut bytes, 16, &q.to_be_bytes());
    bytes
}
