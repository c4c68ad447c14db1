//! Where a byte stands.

ghost use Rattle.std.specs.Prelude.{◌≡◌, ◌≤◌, ◌==◌, length};
ghost use Rattle.std.specs.List.{position_or_len};

/// The first place of the byte, or the length where it stands nowhere.
pub(crate) fn place_of(byte: u8, bytes: &[u8]) -> usize
    ensures first { result ≡ position_or_len (λ c. c == byte) bytes.now }
    ensures within { result ≤ length bytes.now }
{
    for (place, c) in bytes.iter().enumerate() {
        if *c == byte {
            return place;
        }
    }
    bytes.len()
}
