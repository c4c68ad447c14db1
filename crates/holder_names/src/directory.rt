//! Which name an id is printed by.

ghost use Rattle.std.specs.Prelude.{◌≡◌, ◌++◌, [], ◌∷◌, OnOk, OnErr};
ghost use Rattle.holder_names.specs.Directories.{name_of, label_of};

use crate::label::Label;
use dh_base::{Id, Name, NoMemory};
use std::alloc::Global;
use std::marker::Model;

/// Names for ids. A contract sees the list of both, in the order in which they were added.
#[derive(Drop)]
pub struct Directory {
    listed: Vec<(Id, Name)>,
}

impl Model for Directory {
    ghost use Rattle.std.specs.Prelude.{List};
    ghost use Rattle.holder_names.specs.Directories.{Listed};

    ghost Value = { List Listed };

    ghost view = { λ d. d.listed.items };
}

impl Directory {
    pub fn new(alloc: Global) -> Directory
        ensures { result ≡ [] }
    {
        Directory {
            listed: Vec::new(alloc),
        }
    }

    /// Names an id. An id that has a name keeps it.
    pub fn add(&mut self, id: &Id, name: &Name) -> Result<(), NoMemory>
        ensures ok { OnOk result (self.new ≡ self.old ++ (id.now, name.now) ∷ []) }
        ensures err { OnErr result (self.new ≡ self.old) }
    {
        match self.listed.push((*id, *name)) {
            Ok(()) => Ok(()),
            Err(_) => Err(NoMemory),
        }
    }

    fn name_of(&self, id: &Id) -> Option<Name>
        ensures { result ≡ name_of self.now id.now }
    {
        self.listed
            .iter()
            .find(|entry| *id == entry.0)
            .map(|entry| entry.1)
    }

    /// What is printed for an id.
    pub fn label(&self, id: &Id) -> Label
        ensures { result ≡ label_of self.now id.now }
    {
        match self.name_of(id) {
            Some(name) => Label::Called(name),
            None => Label::Unnamed(*id),
        }
    }
}
