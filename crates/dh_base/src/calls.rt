//! The count of calls by which an in-memory outside fails where it is told to.

ghost use Rattle.std.specs.Prelude.{◌≡◌, ◌↔◌, Ok, IsErr, IsTrue};
ghost use Rattle.dh_base.specs.Calls.{fails_next, after_call, one_more};

use crate::failure::{Failed, count_fault};
use crate::list::List;
use std::marker::Model;

/// Counts the calls of an in-memory outside, and fails those whose numbers, from 0, it was given.
/// Its counts stand still at the greatest value of their type.
#[derive(Debug, Drop)]
pub struct Calls {
    fails: List<u32>,
    made: u32,
    faults: u64,
}

impl Model for Calls {
    ghost use Rattle.dh_base.specs.Calls.{CallsTold};

    ghost Value = { CallsTold };

    ghost view = { λ c. record { fails = c.fails; made = c.made; faults = c.faults } };
}

impl Calls {
    /// No calls yet.
    pub fn new(fails: List<u32>) -> Calls
        ensures { result ≡ record { fails = fails; made = 0; faults = 0 } }
    {
        Calls {
            fails,
            made: 0,
            faults: 0,
        }
    }

    /// Whether the next call is to fail.
    fn fails_next(&self) -> bool
        ensures { result ≡ fails_next self.now }
    {
        self.fails.as_slice().contains(&self.made)
    }

    /// One call more.
    pub fn make(&mut self) -> Result<(), Failed>
        ensures fails { IsErr result ↔ IsTrue (fails_next self.old) }
        ensures after { self.new ≡ after_call self.old }
    {
        let fails = self.fails_next();
        self.made = self.made.saturating_add(1);
        if fails {
            Err(count_fault(&mut self.faults))
        } else {
            Ok(())
        }
    }

    /// Counts a fault of the call that was made last, where that call didn't fail by its number.
    pub fn refuse(&mut self) -> Failed
        ensures { self.new ≡ record self.old { faults = one_more 64 self.old.faults } }
    {
        count_fault(&mut self.faults)
    }

    /// How many calls have failed.
    pub fn faults(&self) -> u64
        ensures { result ≡ self.now.faults }
    {
        self.faults
    }
}
