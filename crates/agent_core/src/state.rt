//! What an agent has in memory.

ghost use Rattle.std.specs.Prelude.{◌≡◌, ◌-◌, ◌≤◌, ◌<◌, length, None, IfOk, IfSome, IfNone};
ghost use Rattle.std.specs.Option.{option_copied, option_map};
ghost use Rattle.deal_core.specs.Kept.{is_on};
ghost use Rattle.joined_deals.specs.Signed.{unsigned_in};
ghost use Rattle.joined_deals.specs.Agents.{is_of_id, deal_joined};
ghost use Rattle.joined_deals.specs.AgentCalls.{early_refusal, next_refusal, again_refusal, next_in, invalid, commit_refusal, is_waiting, hear_refusal, newer_kept};

use act_text::Statement;
use clear_core::PlanAct;
use deal_core::{Deal, Step, party_of};
use dh_base::{Id, Name, NoMemory, Outcome};
use joined_deals::heard::{is_settled_in, kept_of};
use joined_deals::seeing::unseen;
use joined_deals::signed::is_signed;
use joined_deals::{AgentFault, JoinedDeal};
use key_ring::Signer;
use std::alloc::Global;

/// What an agent has in memory, beside its keeper: the keys of its ring with what they have signed,
/// the account of the ring, the house, the deals that are joined, and the statements that are kept.
#[derive(Drop)]
pub(crate) struct AgentState {
    pub(crate) signer: Signer,
    pub(crate) account: Id,
    pub(crate) house: Id,
    pub(crate) deals: Vec<JoinedDeal>,
    pub(crate) heard: Vec<Statement>,
}

/// An act of a plan that is the next to be signed, at its place.
#[derive(Clone, Copy)]
pub(crate) struct Due {
    pub(crate) place: u16,
    pub(crate) act: PlanAct,
}

/// Whether the joined deal has that id.
fn is_of_id(joined: &JoinedDeal, id: &Id) -> bool
    ensures { result ≡ is_of_id id.now joined.now }
{
    *id == joined.id()
}

/// The joined deal of that id.
pub(crate) fn joined_in<'a>(deals: &'a [JoinedDeal], id: &Id) -> Option<&'a JoinedDeal>
    ensures { option_copied result ≡ deal_joined deals.now id.now }
{
    for joined in deals {
        if is_of_id(joined, id) {
            return Some(joined);
        }
    }
    None
}

/// Whether a step is on that ledger.
fn is_on(steps: &[Step], ledger: &Name) -> bool
    ensures { result ≡ is_on steps.now ledger.now }
{
    steps.iter().any(|step| *ledger == step.ledger)
}

impl AgentState {
    ghost use Rattle.agent_core.specs.AgentSeen.{agent_in, IsDue};

    /// What is looked at before the terms of a deal.
    pub(crate) fn early_refusal(&self, deal: &Deal) -> Option<AgentFault>
        ensures { result ≡ early_refusal (agent_in self.now) deal.now }
    {
        if deal.house != self.house {
            return Some(AgentFault::OtherHouse { named: deal.house });
        }
        if joined_in(&self.deals, &deal.id).is_some() {
            return Some(AgentFault::JoinedAlready);
        }
        if party_of(deal, &self.account).is_none() {
            return Some(AgentFault::NotAParty);
        }
        None
    }

    /// How many keys are neither used nor held for texts of joined deals.
    pub(crate) fn keys_left(&self) -> u16
        ensures { result ≡ self.now.signer.spec.size - length self.now.signer.texts
            - unsigned_in self.now.signer.texts self.now.deals.items }
    {
        let mut left = self.signer.size() - self.signer.used();
        for joined in &self.deals {
            left = left.saturating_sub(joined.unsigned(&self.signer));
        }
        left
    }

    /// Why no next act of the deal is signed.
    pub(crate) fn next_refusal(&self, deal: &Id) -> Option<AgentFault>
        ensures { result ≡ next_refusal (agent_in self.now) deal.now }
    {
        let Some(joined) = joined_in(&self.deals, deal) else {
            return Some(AgentFault::NotJoined);
        };
        if joined.has_voted(&self.signer) {
            return Some(AgentFault::Voted);
        }
        None
    }

    /// The next act of the deal.
    pub(crate) fn next_due(&self, deal: &Id) -> Option<Due>
        ensures some { IfSome result (IsDue (agent_in self.now) deal.now) }
        ensures none { IfNone result (next_in (agent_in self.now) deal.now ≡ None) }
    {
        let joined = joined_in(&self.deals, deal)?;
        let place = joined.issued(&self.signer);
        let act = joined.act(usize::from(place))?;
        Some(Due { place, act })
    }

    /// Why the act of the deal at that place is not given again.
    pub(crate) fn again_refusal(&self, deal: &Id, place: u16) -> Option<AgentFault>
        ensures { result ≡ again_refusal (agent_in self.now) deal.now place }
    {
        let Some(joined) = joined_in(&self.deals, deal) else {
            return Some(AgentFault::NotJoined);
        };
        let issued = joined.issued(&self.signer);
        if place < issued {
            return None;
        }
        Some(AgentFault::NotIssued { issued })
    }

    /// What keeps a joined deal from being valid.
    fn invalid(&self, alloc: Global, joined: &JoinedDeal) -> Result<Option<AgentFault>, NoMemory>
        ensures { IfOk result (λ refusal. refusal ≡ invalid (agent_in self.now) joined.now) }
    {
        let left = joined.acts_open(&self.signer);
        if 0 < left {
            return Ok(Some(AgentFault::ActsOpen { left }));
        }
        unseen(alloc, &self.heard, joined)
    }

    /// Why no commit of the deal is signed.
    pub(crate) fn commit_refusal(
        &self,
        alloc: Global,
        deal: &Id,
    ) -> Result<Option<AgentFault>, NoMemory>
        ensures { IfOk result (λ refusal. refusal ≡ commit_refusal (agent_in self.now) deal.now) }
    {
        let Some(joined) = joined_in(&self.deals, deal) else {
            return Ok(Some(AgentFault::NotJoined));
        };
        if is_signed(&self.signer, joined.vote_text(Outcome::Abort)) {
            return Ok(Some(AgentFault::AbortSigned));
        }
        if is_signed(&self.signer, joined.vote_text(Outcome::Commit)) {
            return Ok(None);
        }
        self.invalid(alloc, joined)
    }

    /// Whether the deal, if it is joined, is still waited for, or is heard settled.
    pub(crate) fn is_waiting(&self, deal: &Id, now: u64) -> Option<bool>
        ensures { result ≡ option_map (λ joined. is_waiting (agent_in self.now) joined now)
            (deal_joined self.now.deals.items deal.now) }
    {
        let joined = joined_in(&self.deals, deal)?;
        let settled = is_settled_in(&self.heard, &joined.id());
        Some(now < joined.deadline() || settled)
    }

    /// Why a statement is not taken.
    pub(crate) fn hear_refusal(&self, statement: &Statement) -> Option<AgentFault>
        ensures { result ≡ hear_refusal (agent_in self.now) statement.now }
    {
        if statement.house != self.house {
            return Some(AgentFault::OtherHouse {
                named: statement.house,
            });
        }
        let Some(joined) = joined_in(&self.deals, &statement.deal) else {
            return Some(AgentFault::NotJoined);
        };
        if statement.party != self.account {
            return Some(AgentFault::NotMine {
                party: statement.party,
            });
        }
        if !is_on(joined.deal().steps(), &statement.ledger) {
            return Some(AgentFault::NotOfDeal {
                ledger: statement.ledger,
            });
        }
        None
    }

    /// How many entries are behind the kept statement, where they are more than behind this one.
    pub(crate) fn newer_kept(&self, statement: &Statement) -> Option<u64>
        ensures { result ≡ newer_kept (agent_in self.now) statement.now }
    {
        let kept = kept_of(&self.heard, &statement.deal, &statement.ledger)?;
        if statement.at < kept.at {
            return Some(kept.at);
        }
        None
    }
}
