//! Reading what a line says of a holder of keys.

ghost use Rattle.std.specs.Prelude.{◌≡◌};
ghost use Rattle.house_words.specs.WordKinds.{Takes};
ghost use Rattle.house_grammar.specs.Holders.{size_word, name_conduct_size};

use crate::holder_line::{Conduct, KeySize};
use dh_base::Name;
use house_words::word_kinds::one_of;
use line_text::Words;

/// Takes the next word, where it is the size of a holder's keys.
#[tactic(auto, unfolding(crate::specs::Holders::size_word))]
fn key_size(words: &mut Words<'_>) -> Option<KeySize>
    ensures { Takes result words.new (size_word words.old) }
{
    if let Some(count) = words.number_u32() {
        return Some(KeySize::Ring(count));
    }
    one_of(
        words,
        b"t5",
        KeySize::TreeOfHeight5,
        b"t6",
        KeySize::TreeOfHeight10,
    )
}

#[tactic(auto, unfolding(crate::specs::Holders::name_conduct_size))]
pub(crate) fn name_conduct_size(mut words: Words<'_>) -> Option<(Name, Conduct, KeySize)>
    ensures { result ≡ name_conduct_size words.entry }
{
    let name = words.name()?;
    let conduct = one_of(
        &mut words,
        b"honest",
        Conduct::Honest,
        b"deviant",
        Conduct::Deviant,
    )?;
    let size = key_size(&mut words)?;
    if !words.is_done() {
        return None;
    }
    Some((name, conduct, size))
}
