//! Ids as words.

ghost use Rattle.std.specs.Prelude.{◌≡◌, Some, None, IsTrue, length};
ghost use Rattle.std.specs.List.{list_all};
ghost use Rattle.line_text.specs.IdWords.{is_hex_digit, hex_value, is_id, bytes_of_hex, id_of};

use dh_base::Id;

/// A decimal digit or one of the letters `a` to `f`.
fn is_hex_digit(c: u8) -> bool
    ensures { result ≡ is_hex_digit c }
{
    c.is_ascii_digit() || (b'a' <= c && c <= b'f')
}

/// The value of a hexadecimal digit.
fn hex_value(c: u8) -> u8
    requires { IsTrue (is_hex_digit c) }
    ensures { result ≡ hex_value c }
{
    if c <= b'9' { c - b'0' } else { c - b'a' + 10 }
}

/// Whether all of the word is hexadecimal digits.
fn are_hex_digits(word: &[u8]) -> bool
    ensures { result ≡ list_all is_hex_digit word.now }
{
    word.iter().all(|c| is_hex_digit(*c))
}

/// Whether the word is 64 hexadecimal digits.
fn is_id(word: &[u8]) -> bool
    ensures { result ≡ is_id word.now }
{
    word.len() == 64 && are_hex_digits(word)
}

/// The bytes of 64 hexadecimal digits.
fn bytes_of_hex(word: &[u8]) -> [u8; 32]
    requires { IsTrue (is_id word.now) }
    ensures { result ≡ bytes_of_hex word.now }
{
    let mut bytes = [0; 32];
    for place in 0..32 {
        bytes[place] = 16 * hex_value(word[2 * place]) + hex_value(word[2 * place + 1]);
    }
    bytes
}

/// The id that the word is: 64 lower-case hexadecimal digits.
pub(crate) fn id_of(word: &[u8]) -> Option<Id>
    ensures { result ≡ id_of word.now }
{
    if is_id(word) {
        Some(Id(bytes_of_hex(word)))
    } else {
        None
    }
}
