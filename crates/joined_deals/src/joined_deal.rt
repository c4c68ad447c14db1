//! Deals that a party has joined.

ghost use Rattle.std.specs.Prelude.{◌≡◌, ◌≤◌};
ghost use Rattle.joined_deals.specs.Signed.{weight};

use crate::deal_texts::{kept, plan_texts, start_text, text_of_deal, vote_text};
use crate::signed::{count_front, count_unsigned, is_signed};
use clear_core::{PlanAct, plan};
use deal_core::Deal;
use dh_base::{Id, List, NoMemory, Outcome};
use key_ring::Signer;
use std::alloc::Global;
use std::marker::Model;

/// A deal that a party has joined, with all texts that the party may sign in it. A contract sees the
/// deal, the party's index and the deadline, which determine the texts.
#[derive(Drop)]
pub struct JoinedDeal {
    deal: Deal,
    index: u16,
    deadline: u64,
    plan: List<PlanAct>,
    /// The texts of the plan's acts.
    acts: Vec<List<u8>>,
    start: List<u8>,
    commit: List<u8>,
    abort: List<u8>,
}

impl Model for JoinedDeal {
    ghost use Rattle.joined_deals.specs.DealTexts.{JoinedTold};
    ghost use Rattle.joined_deals.specs.TextsKept.{joined_told, KeepsTexts};

    ghost Value = { JoinedTold };

    ghost view = { λ j. joined_told j.deal j.index j.deadline };

    ghost invariant = { λ j. KeepsTexts (joined_told j.deal j.index j.deadline) j.plan j.acts.items
        j.start j.commit j.abort };
}

impl JoinedDeal {
    ghost use Rattle.std.specs.Prelude.{◌≡◌, ◌≤◌, ◌<◌, IfOk, IfSome, length, slice_get};
    ghost use Rattle.std.specs.Option.{option_copied};
    ghost use Rattle.joined_deals.specs.DealTexts.{plan_of_deal, plan_texts, start_text, vote_text, texts_of};
    ghost use Rattle.joined_deals.specs.Signed.{weight, issued_of, acts_open, unsigned_of, has_voted};
    ghost use Rattle.joined_deals.specs.TextSizes.{most_text};
    ghost use Rattle.joined_deals.specs.TextsKept.{joined_told};

    /// The deal, in which the party has that index.
    pub fn new(alloc: Global, deal: Deal, index: u16, deadline: u64) -> Result<JoinedDeal, NoMemory>
        requires { index < length deal.parties }
        ensures { IfOk result (λ joined. joined ≡ joined_told deal index deadline) }
    {
        let text = text_of_deal(alloc, &deal)?;
        let plan = plan(alloc, &deal, index)?;
        let acts = plan_texts(alloc, &deal, text.as_slice(), plan.as_slice())?;
        let start = start_text(alloc, text)?;
        let commit = vote_text(alloc, deal.id, index, Outcome::Commit)?;
        let abort = vote_text(alloc, deal.id, index, Outcome::Abort)?;
        Ok(JoinedDeal {
            deal,
            index,
            deadline,
            plan,
            acts,
            start,
            commit,
            abort,
        })
    }

    /// The id of the deal.
    pub fn id(&self) -> Id
        ensures { result ≡ self.now.deal.id }
    {
        self.deal.id
    }

    /// The deal.
    pub fn deal(&self) -> &Deal
        ensures value { result.now ≡ self.now.deal }
        ensures index { self.now.index < length self.now.deal.parties }
    {
        &self.deal
    }

    /// The index of the party.
    pub fn index(&self) -> u16
        ensures { result ≡ self.now.index }
    {
        self.index
    }

    /// Until when the party waits for the others.
    pub fn deadline(&self) -> u64
        ensures { result ≡ self.now.deadline }
    {
        self.deadline
    }

    /// An act of the plan.
    pub fn act(&self, k: usize) -> Option<PlanAct>
        ensures { result ≡ slice_get (plan_of_deal self.now) k }
    {
        self.plan.as_slice().get(k).copied()
    }

    /// The text of an act of the plan.
    pub fn act_text(&self, k: usize) -> Option<&[u8]>
        ensures text { option_copied result ≡ slice_get (plan_texts self.now) k }
        ensures short { IfSome result (λ text. length text.now ≤ most_text) }
    {
        let text = self.acts.get(k)?;
        Some(text.as_slice())
    }

    /// The text that starts the deal in the log.
    pub fn start_text(&self) -> &[u8]
        ensures text { result.now ≡ start_text self.now }
        ensures short { length result.now ≤ most_text }
    {
        self.start.as_slice()
    }

    /// The text of a vote of the party.
    pub fn vote_text(&self, choice: Outcome) -> &[u8]
        ensures text { result.now ≡ vote_text self.now choice }
        ensures short { length result.now ≤ most_text }
    {
        match choice {
            Outcome::Commit => self.commit.as_slice(),
            Outcome::Abort => self.abort.as_slice(),
        }
    }

    /// How many acts the plan has.
    fn count_acts(&self) -> u16
        ensures count { result ≡ length (plan_texts self.now) }
        ensures few { result ≤ 129 }
    {
        kept(&self.deal);
        self.acts.len() as u16
    }

    /// How many keys all texts of the deal may want.
    pub fn keys_needed(&self) -> u16
        ensures { result ≡ length (texts_of self.now) }
    {
        3 + self.count_acts()
    }

    /// How many acts of the plan the signer has signed.
    pub fn issued(&self, signer: &Signer) -> u16
        ensures { result ≡ issued_of signer.now.texts self.now }
    {
        self.count_acts();
        count_front(signer, &self.acts) as u16
    }

    /// How many acts of the plan it has not signed.
    pub fn acts_open(&self, signer: &Signer) -> u16
        ensures count { result ≡ acts_open signer.now.texts self.now }
        ensures few { result ≤ 129 }
    {
        self.count_acts();
        count_unsigned(signer, &self.acts) as u16
    }

    /// Whether it has signed a vote of the deal.
    pub fn has_voted(&self, signer: &Signer) -> bool
        ensures { result ≡ has_voted signer.now.texts self.now }
    {
        is_signed(signer, self.commit.as_slice()) || is_signed(signer, self.abort.as_slice())
    }

    /// One where the start is not signed.
    fn start_weight(&self, signer: &Signer) -> u16
        ensures weight { result ≡ weight signer.now.texts (start_text self.now) }
        ensures few { result ≤ 1 }
    {
        weight(signer, self.start_text())
    }

    /// One where the vote is not signed.
    fn vote_weight(&self, signer: &Signer, choice: Outcome) -> u16
        ensures weight { result ≡ weight signer.now.texts (vote_text self.now choice) }
        ensures few { result ≤ 1 }
    {
        weight(signer, self.vote_text(choice))
    }

    /// How many texts of the deal it has not signed.
    pub fn unsigned(&self, signer: &Signer) -> u16
        ensures count { result ≡ unsigned_of signer.now.texts self.now }
        ensures few { result ≤ 132 }
    {
        let start = self.start_weight(signer);
        let commit = self.vote_weight(signer, Outcome::Commit);
        let abort = self.vote_weight(signer, Outcome::Abort);
        self.acts_open(signer) + start + commit + abort
    }
}

/// One for a text that is not signed, and nothing for one that is.
fn weight(signer: &Signer, text: &[u8]) -> u16
    ensures weight { result ≡ weight signer.now.texts text.now }
    ensures few { result ≤ 1 }
{
    if is_signed(signer, text) { 0 } else { 1 }
}
