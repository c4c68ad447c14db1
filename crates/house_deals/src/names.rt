//! Names in lists.

ghost use Rattle.std.specs.Prelude.{◌≡◌};
ghost use Rattle.house_deals.specs.Different.{is_among, are_different};

use dh_base::Name;

/// Whether the name is one of the names.
pub fn is_among(names: &[Name], name: &Name) -> bool
    ensures { result ≡ is_among names.now name.now }
{
    names.iter().any(|other| name == other)
}

/// Whether no name stands twice.
pub fn are_different(names: &[Name]) -> bool
    ensures { result ≡ are_different names.now }
{
    let mut left = names;
    while let [name, rest @ ..] = left {
        if is_among(rest, name) {
            return false;
        }
        left = rest;
    }
    true
}
