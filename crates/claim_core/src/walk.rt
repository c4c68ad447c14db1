//! A walk along the records of a claim.

ghost use Rattle.std.specs.Prelude.{◌≡◌, ◌≤◌, [], length, take};
ghost use Rattle.vote_log.specs.Heads.{head_after};
ghost use Rattle.claim_core.specs.Walks.{HasWalked};

use dh_base::Id;
use vote_log::{LogRecord, first_head, head_of, head_onward};

/// How many records have been passed, and the head of these. Links that stand one behind the other
/// on the records make their heads together.
#[derive(Drop)]
pub(crate) struct Walk {
    pub passed: usize,
    pub head: Id,
}

impl Walk {
    /// No record is passed yet.
    pub(crate) fn new(house: &Id) -> Walk
        ensures none { result.passed ≡ 0 }
        ensures head { result.head ≡ head_after house.now [] }
    {
        Walk {
            passed: 0,
            head: first_head(house),
        }
    }

    /// Goes on, or back, to where so many records are passed.
    #[tactic(auto, using(crate::proofs::Walked::head_further))]
    pub(crate) fn go_to(&mut self, house: &Id, recs: &[LogRecord], len: usize)
        requires walked { HasWalked house.now recs.now self.old }
        requires within { len ≤ length recs.now }
        ensures walked { HasWalked house.now recs.now self.new }
        ensures there { self.new.head ≡ head_after house.now (take len recs.now) }
    {
        self.head = if self.passed <= len {
            head_onward(&self.head, &recs[self.passed..len])
        } else {
            head_of(house, &recs[..len])
        };
        self.passed = len;
    }
}
