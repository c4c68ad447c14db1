//! What is printed for an id.

use dh_base::{Id, Name};
use std::fmt;

/// The name of an id, or the id where it has none.
#[derive(Clone, Copy)]
pub enum Label {
    Called(Name),
    Unnamed(Id),
}

impl fmt::Display for Label {
    ghost use Rattle.std.specs.Prelude.{Some};
    ghost use Rattle.holder_names.specs.Directories.{label_text};

    ghost output = { λ label. Some (label_text label) };

    fn fmt<W: fmt::Write>(&self, f: &mut fmt::Formatter<W>) -> fmt::Result {
        match self {
            Label::Called(name) => write!(f, "{name}"),
            Label::Unnamed(id) => write!(f, "{id}"),
        }
    }
}
