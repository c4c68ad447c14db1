//! Decimal numbers of any length.

ghost use Rattle.std.specs.Prelude.{◌≡◌, ◌+◌, ◌*◌, ◌<◌, ◌↔◌, ℕ, IsTrue, length, slice_index, option_map};
ghost use Rattle.line_text.specs.Numbers.{number_of, in_64_bits, in_32_bits, amount_of};

use dh_base::GREATEST_AMOUNT;

/// A number, as far as 64 bits tell it.
#[derive(Clone, Copy, Debug, PartialEq, Eq)]
pub enum Number {
    Fits(u64),
    /// It is 2^64 or more.
    Exceeds,
}

impl Number {
    /// The number that the word is: digits without sign, and with no zero in front, save the number
    /// 0 itself.
    pub fn from_bytes(word: &[u8]) -> Option<Number>
        ensures { result ≡ option_map in_64_bits (number_of word.now) }
    {
        if word.is_empty() || has_leading_zero(word) {
            return None;
        }
        let mut number = Number::Fits(0);
        for c in word {
            if !c.is_ascii_digit() {
                return None;
            }
            number = number.with_digit(*c - b'0');
        }
        Some(number)
    }

    /// Its value, where that fits 32 bits.
    pub(crate) fn to_u32(self) -> Option<u32>
        ensures { (n : ℕ) → self ≡ in_64_bits n → result ≡ in_32_bits n }
    {
        match self {
            Number::Fits(value) => u32::try_from(value).ok(),
            Number::Exceeds => None,
        }
    }

    /// Its value, where that is an amount: at most 2^63 - 1.
    pub(crate) fn to_amount(self) -> Option<u64>
        ensures { (n : ℕ) → self ≡ in_64_bits n → result ≡ amount_of n }
    {
        match self {
            Number::Fits(value) if value <= GREATEST_AMOUNT => Some(value),
            _ => None,
        }
    }

    /// The number with one more digit at its end.
    fn with_digit(self, digit: u8) -> Number
        requires { digit < 10 }
        ensures { (n : ℕ) → self ≡ in_64_bits n → result ≡ in_64_bits (n * 10 + digit) }
    {
        let digit = u64::from(digit);
        match self {
            Number::Fits(value) if value <= (u64::MAX - digit) / 10 => {
                Number::Fits(value * 10 + digit)
            }
            _ => Number::Exceeds,
        }
    }
}

/// Whether a zero stands in front of something else.
fn has_leading_zero(word: &[u8]) -> bool
    ensures { IsTrue result ↔ ((1 < length word.now) × (slice_index word.now 0 ≡ 48)) }
{
    word.len() > 1 && word[0] == b'0'
}
