//! A line word by word.

ghost use Rattle.std.specs.Prelude.{◌≡◌, [], ◌∷◌, IfSome, IfNone, Some, None};
ghost use Rattle.line_text.specs.Words.{words_of};
ghost use Rattle.line_text.specs.Seen.{words_left};
ghost use Rattle.line_text.specs.Reading.{
  Reads,
  name_word,
  number_word,
  number_u32_word,
  amount_word,
  id_word,
  is_done as none_left,
};

use crate::id_word::id_of;
use crate::number::Number;
use crate::place::place_of;
use dh_base::{Id, Name};
use std::marker::Model;

/// The words of a line that are left. A contract sees their list.
///
/// Each reader takes the next word, or answers None and takes nothing.
#[derive(Debug, Drop)]
pub struct Words<'a> {
    rest: Option<&'a [u8]>,
}

impl<'a> Model for Words<'a> {
    ghost use Rattle.std.specs.Prelude.{List, ℕ};
    ghost use Rattle.line_text.specs.Seen.{words_left};

    ghost Value = { List (List ℕ) };

    ghost view = { λ a. words_left a.rest };
}

impl<'a> Words<'a> {
    /// All words of the line.
    pub fn new(line: &'a [u8]) -> Words<'a>
        ensures { result ≡ words_of line.now }
    {
        Words { rest: Some(line) }
    }

    /// Whether no word is left.
    pub fn is_done(&self) -> bool
        ensures { result ≡ none_left self.now }
    {
        self.rest.is_none()
    }

    /// Takes the next word, whatever it is.
    pub fn next_word(&mut self) -> Option<&'a [u8]>
        ensures word { IfSome result (λ word. self.old ≡ word.now ∷ self.new) }
        ensures none { IfNone result ((self.old ≡ []) × (self.new ≡ [])) }
    {
        let (word, rest) = self.split_first()?;
        *self = rest;
        Some(word)
    }

    /// Takes the next word, where it is a name.
    #[tactic(auto, unfolding(crate::specs::Reading::name_word))]
    pub fn name(&mut self) -> Option<Name>
        ensures { Reads (λ name. name) result self.old self.new (name_word self.old) }
    {
        let (word, rest) = self.split_first()?;
        let name = Name::from_bytes(word).ok()?;
        *self = rest;
        Some(name)
    }

    /// Takes the next word, where it is a number.
    #[tactic(auto, unfolding(crate::specs::Reading::number_word))]
    pub fn number(&mut self) -> Option<Number>
        ensures { Reads (λ number. number) result self.old self.new (number_word self.old) }
    {
        let (word, rest) = self.split_first()?;
        let number = Number::from_bytes(word)?;
        *self = rest;
        Some(number)
    }

    /// Takes the next word, where it is a number, and answers its value where that fits 32 bits.
    #[tactic(auto, unfolding(crate::specs::Reading::number_u32_word))]
    pub fn number_u32(&mut self) -> Option<Option<u32>>
        ensures { Reads (λ number. number) result self.old self.new (number_u32_word self.old) }
    {
        let (word, rest) = self.split_first()?;
        let number = Number::from_bytes(word)?;
        *self = rest;
        Some(number.to_u32())
    }

    /// Takes the next word, where it is an amount: a number of at most 2^63 - 1.
    #[tactic(auto, unfolding(crate::specs::Reading::amount_word))]
    pub fn amount(&mut self) -> Option<u64>
        ensures { Reads (λ amount. amount) result self.old self.new (amount_word self.old) }
    {
        let (word, rest) = self.split_first()?;
        let amount = Number::from_bytes(word)?.to_amount()?;
        *self = rest;
        Some(amount)
    }

    /// Takes the next word, where it is an id: 64 lower-case hexadecimal digits, two for each byte.
    #[tactic(auto, unfolding(crate::specs::Reading::id_word))]
    pub fn id(&mut self) -> Option<Id>
        ensures { Reads (λ id. id) result self.old self.new (id_word self.old) }
    {
        let (word, rest) = self.split_first()?;
        let id = id_of(word)?;
        *self = rest;
        Some(id)
    }

    /// The next word, and the words behind it.
    fn split_first(&self) -> Option<(&'a [u8], Words<'a>)>
        ensures word { IfSome result (λ found. self.now ≡ found.0.now ∷ found.1) }
        ensures none { IfNone result (self.now ≡ []) }
    {
        let (word, rest) = first_word(self.rest?);
        Some((word, Words { rest }))
    }
}

/// The first word, and what stands behind the space that ends it.
fn first_word(line: &[u8]) -> (&[u8], Option<&[u8]>)
    ensures { words_of line.now ≡ result.0.now ∷ words_left result.1 }
{
    let (word, rest) = line.split_at(place_of(b' ', line));
    match rest {
        [] => (word, None),
        [_, rest @ ..] => (word, Some(rest)),
    }
}
