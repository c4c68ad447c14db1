//! Reading what stands behind the words with which lines begin: whole tails that several lines
//! share.

ghost use Rattle.std.specs.Prelude.{◌≡◌, IfOk};
ghost use Rattle.house_words.specs.Tails.{
  one_name,
  two_names,
  three_names,
  three_names_amount,
  two_names_number,
  name_number_name,
  two_names_number_name,
  three_names_number_outcome,
  name_two_numbers,
  two_names_number_then,
  names_from,
  name_if_any,
};
ghost use Rattle.house_words.specs.WordKinds.{Takes};

use crate::word_kinds::one_of;
use dh_base::{List, Name, NoMemory, Outcome};
use line_text::Words;
use script_lines::names;
use std::alloc::Global;

#[tactic(auto, unfolding(crate::specs::Tails::one_name))]
pub fn one_name(mut words: Words<'_>) -> Option<Name>
    ensures { result ≡ one_name words.entry }
{
    let name = words.name()?;
    if !words.is_done() {
        return None;
    }
    Some(name)
}

#[tactic(auto, unfolding(crate::specs::Tails::two_names))]
pub fn two_names(mut words: Words<'_>) -> Option<(Name, Name)>
    ensures { result ≡ two_names words.entry }
{
    let first = words.name()?;
    let second = words.name()?;
    if !words.is_done() {
        return None;
    }
    Some((first, second))
}

#[tactic(auto, unfolding(crate::specs::Tails::three_names))]
pub fn three_names(mut words: Words<'_>) -> Option<(Name, Name, Name)>
    ensures { result ≡ three_names words.entry }
{
    let first = words.name()?;
    let second = words.name()?;
    let third = words.name()?;
    if !words.is_done() {
        return None;
    }
    Some((first, second, third))
}

#[tactic(auto, unfolding(crate::specs::Tails::three_names_amount))]
pub fn three_names_amount(mut words: Words<'_>) -> Option<(Name, Name, Name, u64)>
    ensures { result ≡ three_names_amount words.entry }
{
    let first = words.name()?;
    let second = words.name()?;
    let third = words.name()?;
    let amount = words.amount()?;
    if !words.is_done() {
        return None;
    }
    Some((first, second, third, amount))
}

/// Two names and a number.
#[tactic(auto, unfolding(crate::specs::Tails::two_names_number_then))]
pub fn two_names_number_then(words: &mut Words<'_>) -> Option<(Name, Name, Option<u32>)>
    ensures { Takes result words.new (two_names_number_then words.old) }
{
    let first = words.name()?;
    let second = words.name()?;
    let number = words.number_u32()?;
    Some((first, second, number))
}

#[tactic(auto, unfolding(crate::specs::Tails::two_names_number))]
pub fn two_names_number(mut words: Words<'_>) -> Option<(Name, Name, Option<u32>)>
    ensures { result ≡ two_names_number words.entry }
{
    let head = two_names_number_then(&mut words)?;
    if !words.is_done() {
        return None;
    }
    Some(head)
}

#[tactic(auto, unfolding(crate::specs::Tails::name_number_name))]
pub fn name_number_name(mut words: Words<'_>) -> Option<(Name, Option<u32>, Name)>
    ensures { result ≡ name_number_name words.entry }
{
    let first = words.name()?;
    let number = words.number_u32()?;
    let second = words.name()?;
    if !words.is_done() {
        return None;
    }
    Some((first, number, second))
}

#[tactic(auto, unfolding(crate::specs::Tails::two_names_number_name))]
pub fn two_names_number_name(mut words: Words<'_>) -> Option<(Name, Name, Option<u32>, Name)>
    ensures { result ≡ two_names_number_name words.entry }
{
    let (first, second, number) = two_names_number_then(&mut words)?;
    let last = words.name()?;
    if !words.is_done() {
        return None;
    }
    Some((first, second, number, last))
}

#[tactic(auto, unfolding(crate::specs::Tails::three_names_number_outcome))]
pub fn three_names_number_outcome(
    mut words: Words<'_>,
) -> Option<(Name, Name, Name, Option<u32>, Outcome)>
    ensures { result ≡ three_names_number_outcome words.entry }
{
    let first = words.name()?;
    let second = words.name()?;
    let third = words.name()?;
    let number = words.number_u32()?;
    let outcome = one_of(
        &mut words,
        b"commit",
        Outcome::Commit,
        b"abort",
        Outcome::Abort,
    )?;
    if !words.is_done() {
        return None;
    }
    Some((first, second, third, number, outcome))
}

/// A name and two numbers.
#[tactic(auto, unfolding(crate::specs::Tails::name_two_numbers))]
pub fn name_two_numbers(words: &mut Words<'_>) -> Option<(Name, Option<u32>, Option<u32>)>
    ensures { Takes result words.new (name_two_numbers words.old) }
{
    let name = words.name()?;
    let first = words.number_u32()?;
    let second = words.number_u32()?;
    Some((name, first, second))
}

/// The words that are left, where each is a name and they are as many at least.
#[tactic(auto, unfolding(crate::specs::Tails::names_from))]
pub fn names_from(
    alloc: Global,
    least: usize,
    words: Words<'_>,
) -> Result<Option<List<Name>>, NoMemory>
    ensures { IfOk result (λ names. names ≡ names_from least words.entry) }
{
    match names(alloc, words)? {
        Some(names) if names.len() >= least => Ok(Some(names)),
        _ => Ok(None),
    }
}

/// A name, or nothing.
pub fn name_if_any(words: Words<'_>) -> Option<Option<Name>>
    ensures { result ≡ name_if_any words.entry }
{
    if words.is_done() {
        return Some(None);
    }
    let name = one_name(words)?;
    Some(Some(name))
}
