//! The tallies of all deals of a log.

use crate::tally::Tally;
use dh_base::{Id, NoMemory};
use std::alloc::Global;
use std::collections::BTreeMap;

/// The tally of each started deal.
#[derive(Debug, Drop)]
pub struct Tallies {
    by_deal: BTreeMap<Id, Tally>,
}

impl Tallies {
    ghost use Rattle.std.specs.Prelude.{◌≡◌, if◌then◌else◌, None, OnOk, OnErr, IsSome};
    ghost use Rattle.std.specs.Option.{option_copied};
    ghost use Rattle.std.specs.Str.{bytes_eq};
    ghost use Rattle.dh_base.specs.declared.id.Id.{Id};
    ghost use Rattle.vote_log.specs.Tallied.{tally_at};

    /// No tallies.
    pub fn new(alloc: Global) -> Tallies
        ensures { (deal : Id) → tally_at result deal ≡ None }
    {
        Tallies {
            by_deal: BTreeMap::new(alloc),
        }
    }

    /// The tally of a deal.
    pub fn get(&self, deal: &Id) -> Option<&Tally>
        ensures { option_copied result ≡ tally_at self.now deal.now }
    {
        self.by_deal.get(deal)
    }

    /// Takes a deal's tally out. It takes no memory.
    fn take(&mut self, deal: &Id)
        ensures { (other : Id) → tally_at self.new other
            ≡ (if bytes_eq deal.now.0 other.0 then None else tally_at self.old other) }
    {
        self.by_deal.remove(deal);
    }

    /// Puts a deal's tally in place of the one that it had, or takes it out.
    pub fn put(&mut self, deal: &Id, tally: Option<Tally>) -> Result<(), NoMemory>
        ensures ok { OnOk result ((other : Id) → tally_at self.new other
            ≡ (if bytes_eq deal.now.0 other.0 then tally else tally_at self.old other)) }
        ensures err { OnErr result ((other : Id)
            → tally_at self.new other ≡ tally_at self.old other) }
    {
        match tally {
            Some(tally) => {
                self.by_deal.insert(*deal, tally)?;
            }
            None => self.take(deal),
        }
        Ok(())
    }

    /// Gives a deal the tally that it had before, which takes no memory.
    pub fn put_back(&mut self, deal: &Id, tally: Option<Tally>)
        requires { IsSome tally → IsSome (tally_at self.old deal.now) }
        ensures { (other : Id) → tally_at self.new other
            ≡ (if bytes_eq deal.now.0 other.0 then tally else tally_at self.old other) }
    {
        match tally {
            Some(tally) => {
                if let Some(slot) = self.by_deal.get_mut(deal) {
                    *slot = tally;
                }
            }
            None => self.take(deal),
        }
    }
}
