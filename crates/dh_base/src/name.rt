//! Names of parties, ledgers, assets and deals.

ghost use Rattle.std.specs.Prelude.{◌≡◌, ◌≤◌, length, min, IsTrue, Ok, Some};
ghost use Rattle.std.specs.Str.{bytes_eq};
ghost use Rattle.std.specs.Cmp.{partial_order_from_own_ties};
ghost use Rattle.std.specs.Cmp.Lexicographic.{slice_cmp};
ghost use Rattle.std.specs.Cmp.Rules.{comparing};
ghost use Rattle.std.specs.Ordering.{nat_cmp, as_partial_cmp};
ghost use Rattle.std.proofs.Common.{rules};
ghost use Rattle.std.specs.List.{prefix_len};
ghost use Rattle.dh_base.specs.Names.{is_name, is_name_byte as name_byte, begins_with_letter as letter_first};
ghost use Rattle.dh_base.specs.NameRead.{name_of};

use crate::base_fault::BaseFault;
use std::cmp::Ordering;
use std::fmt;
use std::marker::Model;

/// A name: 1 to 16 characters of `a` to `z`, `0` to `9` and `-`, the first of them a letter.
/// A contract sees the list of its characters.
#[derive(Clone, Copy)]
pub struct Name {
    /// The characters, and then zeros.
    pub chars: [u8; 16],
    /// How many places are in use.
    pub len: u8,
}

impl Model for Name {
    ghost use Rattle.std.specs.Prelude.{List, ℕ};
    ghost use Rattle.std.specs.Coded.{coded_ℕ, coded_list};

    ghost Value = { List ℕ };

    ghost use Rattle.dh_base.specs.NameShape.{chars_of, IsPadded, padded, padded_back};

    ghost view = { chars_of };

    ghost invariant = { IsPadded };

    ghost inverse = { padded };

    ghost inverse_ok = { padded_back };
}

/// A letter, a digit or a dash.
fn is_name_byte(c: u8) -> bool
    ensures { result ≡ name_byte c }
{
    c.is_ascii_lowercase() || c.is_ascii_digit() || c == b'-'
}

/// How many characters from the front on a name may have, of which there are at most 16.
fn count_name_bytes(text: &[u8]) -> usize
    ensures { result ≡ min 16 (prefix_len name_byte text.now) }
{
    for (place, c) in text.iter().enumerate() {
        if place == 16 || !is_name_byte(*c) {
            return place;
        }
    }
    text.len()
}

/// Whether a letter stands first.
fn begins_with_letter(text: &[u8]) -> bool
    ensures { result ≡ letter_first text.now }
{
    match text {
        [first, ..] => first.is_ascii_lowercase(),
        [] => false,
    }
}

impl Name {
    /// The name that the text is.
    pub fn from_bytes(text: &[u8]) -> Result<Name, BaseFault>
        ensures { result ≡ name_of text.now }
    {
        if !begins_with_letter(text) {
            return Err(BaseFault::BadName { at: 0 });
        }
        let good = count_name_bytes(text);
        if good < text.len() {
            return Err(BaseFault::BadName { at: good as u32 });
        }
        let mut chars = [0; 16];
        chars[..good].copy_from_slice(text);
        Ok(Name {
            chars,
            len: good as u8,
        })
    }

    /// The characters.
    pub fn as_bytes(&self) -> &[u8]
        ensures characters { result.now ≡ self.now }
        ensures name { IsTrue (is_name self.now) }
    {
        &self.chars[..self.len as usize]
    }
}

impl Name {
    /// The characters as text.
    pub fn as_str(&self) -> &str
        ensures { result.now ≡ self.now }
    {
        std::str::from_utf8(self.as_bytes()).unwrap()
    }
}

impl PartialEq for Name {
    ghost eq = { bytes_eq };

    ghost laws = { Prim.search (comparing, rules) };

    fn eq(&self, other: &Name) -> bool {
        self.as_bytes() == other.as_bytes()
    }
}

impl Eq for Name {
    ghost laws = { Prim.search (comparing, rules) };
}

impl Ord for Name {
    ghost cmp = { slice_cmp nat_cmp };

    ghost total = { Prim.search (comparing, rules) };

    ghost matches_partial_cmp = { Prim.search (comparing, rules) };

    ghost matches_eq = { Prim.search (comparing, rules) };

    fn cmp(&self, other: &Name) -> Ordering {
        self.as_bytes().cmp(other.as_bytes())
    }
}

impl PartialOrd for Name {
    ghost partial_cmp = { as_partial_cmp (slice_cmp nat_cmp) };

    ghost laws = { partial_order_from_own_ties (Prim.search (comparing, rules))
        (Prim.search (comparing, rules)) };

    fn partial_cmp(&self, other: &Name) -> Option<Ordering> {
        Some(self.cmp(other))
    }
}

impl fmt::Display for Name {
    ghost output = { λ name. Some name };

    fn fmt<W: fmt::Write>(&self, f: &mut fmt::Formatter<W>) -> fmt::Result {
        f.write_str(self.as_str())
    }
}
