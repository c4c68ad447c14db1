//! Making a key (RFC 8554, section 4.3).

ghost use Rattle.std.specs.Prelude.{◌≡◌};
ghost use Rattle.ots_core.specs.Keys.{public_key_of};

use crate::chain::{STEPS, ends_hash};
use crate::key::Key;
use crate::walks::{Ways, secret_elements, walk};

/// The public key K of key number `q` of the seed. The secret elements come from the seed by the
/// pseudorandom generation of appendix A.
pub fn keygen(seed: &[u8; 32], ident: &[u8; 16], q: u32) -> [u8; 32]
    ensures { result ≡ public_key_of seed.now ident.now q }
{
    let ways = Ways {
        from: [0; 67],
        to: [STEPS; 67],
    };
    let key = Key::new(ident, q);
    let starts = secret_elements(seed, &key);
    ends_hash(ident, q, &walk(&key, &ways, &starts))
}
