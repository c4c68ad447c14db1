//! What the names of envelopes and statements are bound to.

ghost use Rattle.std.specs.Prelude.{◌≡◌, ◌++◌, ◌∷◌, [], OnOk, OnErr};
ghost use Rattle.std.specs.List.{find, list_any};
ghost use Rattle.std.specs.Option.{option_copied};
ghost use Rattle.std.specs.Str.{bytes_eq};
ghost use Rattle.house_building.specs.Bindings.{is_bound, bound_to, envelope_in, envelope_named};

use act_text::Statement;
use dh_base::{Name, NoMemory};
use key_ring::Envelope;
use std::alloc::Global;
use std::marker::Model;

/// What a name may be bound to.
#[derive(Drop)]
pub enum Bound {
    Enveloped(Envelope),
    Stated(Statement),
}

/// A name, and what it is bound to.
#[derive(Drop)]
pub struct Binding {
    pub name: Name,
    pub thing: Bound,
}

/// All names that are bound, in the order in which they were. A contract sees their list.
#[derive(Drop)]
pub struct Bindings {
    listed: Vec<Binding>,
}

impl Model for Bindings {
    ghost use Rattle.std.specs.Prelude.{List};
    ghost use Rattle.house_building.specs.declared.bindings.Binding.{Binding};

    ghost Value = { List Binding };

    ghost view = { λ b. b.listed.items };
}

/// The envelope that the name is bound to.
fn envelope_in(binding: Option<&Binding>) -> Option<&Envelope>
    ensures { option_copied result ≡ envelope_in (option_copied binding.entry) }
{
    match binding {
        None => None,
        Some(binding) => match &binding.thing {
            Bound::Enveloped(envelope) => Some(envelope),
            Bound::Stated(_) => None,
        },
    }
}

impl Bindings {
    pub fn new(alloc: Global) -> Bindings
        ensures { result ≡ [] }
    {
        Bindings {
            listed: Vec::new(alloc),
        }
    }

    /// Whether the name is bound to anything.
    pub fn is_bound(&self, name: &Name) -> bool
        ensures { result ≡ is_bound self.now name.now }
    {
        self.listed.iter().any(|binding| *name == binding.name)
    }

    /// What the name is bound to.
    pub fn find(&self, name: &Name) -> Option<&Binding>
        ensures { option_copied result ≡ bound_to self.now name.now }
    {
        self.listed.iter().find(|binding| *name == binding.name)
    }

    /// The envelope that the name is bound to.
    pub fn envelope(&self, name: &Name) -> Option<&Envelope>
        ensures { option_copied result ≡ envelope_named self.now name.now }
    {
        envelope_in(self.find(name))
    }

    /// Binds the name.
    pub fn bind(&mut self, name: &Name, thing: Bound) -> Result<(), NoMemory>
        ensures ok { OnOk result (self.new ≡ self.old
            ++ record { name = name.now; thing = thing } ∷ []) }
        ensures err { OnErr result (self.new ≡ self.old) }
    {
        match self.listed.push(Binding { name: *name, thing }) {
            Ok(()) => Ok(()),
            Err(_) => Err(NoMemory),
        }
    }
}
