//! Running sums of the rows of a part. A sum that doesn't fit stays at the greatest number.

ghost use Rattle.std.specs.Prelude.{◌≡◌, ℕ, List, IsTrue, OnOk};
ghost use Rattle.dh_base.specs.declared.id.Id.{Id};
ghost use Rattle.escrow_book.specs.Noted.{total_noted, commit_noted, abort_noted, has_total, has_hold, rise, NoteTheSame, NotesTotal, NotesHold};

use crate::row::HoldRow;
use crate::tally::Tally;
use dh_base::{Id, Name};
use std::alloc::{AllocError, Global};

/// What there is of each asset, and what the holds of each deal are together on either end.
#[derive(Drop)]
pub(crate) struct PartSums {
    totals: Tally<Name>,
    commits: Tally<(Id, Name)>,
    aborts: Tally<(Id, Name)>,
}

impl PartSums {
    /// Every sum is 0.
    pub(crate) fn new(alloc: Global) -> PartSums
        ensures totals { (asset : List ℕ) → total_noted result asset ≡ 0 }
        ensures commits { (deal : Id) (asset : List ℕ) → commit_noted result deal asset ≡ 0 }
        ensures aborts { (deal : Id) (asset : List ℕ) → abort_noted result deal asset ≡ 0 }
    {
        PartSums {
            totals: Tally::new(alloc),
            commits: Tally::new(alloc),
            aborts: Tally::new(alloc),
        }
    }

    /// What there is of the asset.
    pub(crate) fn total(&self, asset: &Name) -> u64
        ensures { result ≡ total_noted self.now asset.now }
    {
        self.totals.at(asset)
    }

    /// By how much the greater of the deal's sums rises with the hold.
    pub(crate) fn rise(&self, hold: &HoldRow) -> u64
        ensures { result ≡ rise (commit_noted self.now hold.now.deal hold.now.asset)
            (abort_noted self.now hold.now.deal hold.now.asset) hold.now }
    {
        let key = (hold.deal, hold.asset);
        let commit = self.commits.at(&key);
        let abort = self.aborts.at(&key);
        let greater = commit
            .saturating_add(hold.commit)
            .max(abort.saturating_add(hold.abort));
        greater - commit.max(abort)
    }

    /// Makes room for the asset's total.
    pub(crate) fn make_room(&mut self, asset: &Name) -> Result<(), AllocError>
        ensures ok { OnOk result (IsTrue (has_total self.new asset.now)) }
        ensures same { NoteTheSame self.old self.new }
    {
        self.totals.make_room(*asset)
    }

    /// Makes room for the sums that the hold adds to.
    pub(crate) fn make_hold_room(&mut self, hold: &HoldRow) -> Result<(), AllocError>
        ensures ok { OnOk result (IsTrue (has_hold self.new hold.now)) }
        ensures same { NoteTheSame self.old self.new }
    {
        self.totals.make_room(hold.asset)?;
        self.commits.make_room((hold.deal, hold.asset))?;
        self.aborts.make_room((hold.deal, hold.asset))
    }

    /// Sets the asset's total.
    pub(crate) fn set_total(&mut self, asset: &Name, total: u64)
        requires { IsTrue (has_total self.old asset.now) }
        ensures { NotesTotal self.old self.new asset.now total }
    {
        self.totals.set(asset, total);
    }

    /// Adds the hold to its deal's sums, and sets the total of its asset.
    pub(crate) fn note_hold(&mut self, hold: &HoldRow, total: u64)
        requires { IsTrue (has_hold self.old hold.now) }
        ensures { NotesHold self.old self.new hold.now total }
    {
        let key = (hold.deal, hold.asset);
        let commit = self.commits.at(&key).saturating_add(hold.commit);
        let abort = self.aborts.at(&key).saturating_add(hold.abort);
        self.totals.set(&hold.asset, total);
        self.commits.set(&key, commit);
        self.aborts.set(&key, abort);
    }
}
