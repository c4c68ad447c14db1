//! A change as a book keeps it.

ghost use Rattle.std.specs.Prelude.{◌≡◌, map};
ghost use Rattle.escrow_book.specs.Flow.{gained, lost, if_committed, if_running};
ghost use Rattle.escrow_book.specs.Kept.{is_under, with_end};

use crate::change::Change;
use dh_base::{Id, Name, Outcome};

/// An accepted change, and how the deal in which it moves something has ended.
#[derive(Drop)]
pub(crate) struct Entry {
    pub(crate) change: Change,
    pub(crate) ended: Option<Outcome>,
}

impl Entry {
    /// The amount, if the deal has committed.
    fn if_committed(&self, amount: u64) -> u64
        ensures { result ≡ if_committed self.now.ended amount }
    {
        match self.ended {
            Some(Outcome::Commit) => amount,
            _ => 0,
        }
    }

    /// The amount, if the deal isn't settled.
    fn if_running(&self, amount: u64) -> u64
        ensures { result ≡ if_running self.now.ended amount }
    {
        match self.ended {
            None => amount,
            Some(_) => 0,
        }
    }

    /// What the change brings the account.
    pub(crate) fn gained(&self, account: &Id, asset: &Name) -> u64
        ensures { result ≡ gained self.now.ended account.now asset.now self.now.change }
    {
        match &self.change {
            Change::Paid {
                to,
                asset: kind,
                amount,
                ..
            } if account == to && asset == kind => *amount,
            Change::Transferred {
                to,
                asset: kind,
                amount,
                ..
            } if account == to && asset == kind => self.if_committed(*amount),
            _ => 0,
        }
    }

    /// What the change takes from the account.
    pub(crate) fn lost(&self, account: &Id, asset: &Name) -> u64
        ensures { result ≡ lost self.now.ended account.now asset.now self.now.change }
    {
        match &self.change {
            Change::Paid {
                from,
                asset: kind,
                amount,
                ..
            } if account == from && asset == kind => *amount,
            Change::Transferred {
                from,
                asset: kind,
                amount,
                ..
            } if account == from && asset == kind => self.if_committed(*amount),
            Change::Escrowed {
                party,
                asset: kind,
                amount,
                ..
            } if account == party && asset == kind => self.if_running(*amount),
            _ => 0,
        }
    }
}

/// Notes in each entry of the deal how it ended.
pub(crate) fn note_end(entries: &mut [Entry], deal: &Id, outcome: Outcome)
    ensures { entries.new ≡ map (with_end deal.now outcome) entries.old }
{
    for place in 0..entries.len() {
        if entries[place].change.is_under(deal) {
            entries[place].ended = Some(outcome);
        }
    }
}
