//! The digest of bytes.

ghost use Rattle.std.specs.Prelude.{◌≡◌};
ghost use Rattle.sha2.specs.Sha256.{sha256};

use crate::id::Id;
use sha2::{Digest, Sha256};

/// The SHA-256 digest of the bytes (FIPS 180-4).
pub fn digest(bytes: &[u8]) -> Id
    ensures { result.0 ≡ sha256 bytes.now }
{
    Id(Sha256::digest(bytes))
}
