//! Reading words that are one of two texts, numbers of 64 bits, and bytes.

ghost use Rattle.std.specs.Prelude.{◌≡◌, ◌<◌, IfOk, IfSome};
ghost use Rattle.house_words.specs.WordKinds.{
  Takes,
  one_of,
  number_u64_word,
  hex_digit,
  hex_pairs,
  hex_bytes,
};

use dh_base::{List, NoMemory};
use line_text::{Number, Words};
use std::alloc::Global;

/// Takes the next word, where it is one of two texts, and answers what that stands for.
#[tactic(auto, unfolding(crate::specs::WordKinds::one_of))]
pub fn one_of<T: Drop>(
    words: &mut Words<'_>,
    text: &[u8],
    stands_for: T,
    other_text: &[u8],
    other: T,
) -> Option<T>
    ensures { Takes result words.new (one_of text.now stands_for other_text.now other words.old) }
{
    let word = words.next_word()?;
    if word == text {
        return Some(stands_for);
    }
    if word == other_text {
        return Some(other);
    }
    None
}

/// Takes the next word, where it is a number, and answers its value where that fits 64 bits.
#[tactic(auto, unfolding(crate::specs::WordKinds::number_u64_word))]
pub fn number_u64(words: &mut Words<'_>) -> Option<Option<u64>>
    ensures { Takes result words.new (number_u64_word words.old) }
{
    match words.number()? {
        Number::Fits(value) => Some(Some(value)),
        Number::Exceeds => Some(None),
    }
}

/// The value of a lower-case hexadecimal digit.
fn hex_digit(c: u8) -> Option<u8>
    ensures value { result ≡ hex_digit c }
    ensures small { IfSome result (λ digit. digit < 16) }
{
    if c.is_ascii_digit() {
        return Some(c - b'0');
    }
    if b'a' <= c && c <= b'f' {
        return Some(c - b'a' + 10);
    }
    None
}

/// The bytes that pairs of digits stand for.
fn hex_pairs(alloc: Global, word: &[u8]) -> Result<Option<List<u8>>, NoMemory>
    ensures { IfOk result (λ bytes. bytes ≡ hex_pairs word.now) }
{
    let mut bytes = Vec::new(alloc);
    let mut rest = word;
    while let [high, low, behind @ ..] = rest {
        let Some(high) = hex_digit(*high) else {
            return Ok(None);
        };
        let Some(low) = hex_digit(*low) else {
            return Ok(None);
        };
        bytes.push(16 * high + low)?;
        rest = behind;
    }
    if !rest.is_empty() {
        return Ok(None);
    }
    Ok(Some(List::from_vec(bytes)))
}

/// The bytes that the word stands for, which is one pair of digits at least.
pub fn hex_bytes(alloc: Global, word: &[u8]) -> Result<Option<List<u8>>, NoMemory>
    ensures { IfOk result (λ bytes. bytes ≡ hex_bytes word.now) }
{
    if word.is_empty() {
        return Ok(None);
    }
    hex_pairs(alloc, word)
}
