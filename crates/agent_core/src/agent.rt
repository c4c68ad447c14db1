//! Agents.

ghost use Rattle.std.specs.Prelude.{◌≡◌, IfOk, IfErr, Some};
ghost use Rattle.std.specs.Result.{IsErr};
ghost use Rattle.dh_base.specs.declared.outcome.Outcome.TheVariants.{Commit, Abort};
ghost use Rattle.joined_deals.specs.AgentSteps.{AgentStep};
ghost use Rattle.joined_deals.specs.AgentCalls.{next_refusal, again_refusal, commit_refusal, unjoined, start_in, vote_in, next_in, tick_in};
ghost use Rattle.keeper_core.specs.Knowing.{FailsNext};
ghost use Rattle.agent_core.specs.AgentOpens.{Opens, OpenCause, agent_of, kept_by};
ghost use Rattle.agent_core.specs.declared.wanted.Wanted.TheVariants.{Act};
ghost use Rattle.agent_core.specs.WantedTexts.{wanted_in};
ghost use Rattle.agent_core.specs.AgentDoes.{Gives, IsEnvelope, IsEnvelopeIf, IsTodo, JoinsOrNot, HearsOrNot};

use crate::heard::Heard;
use crate::hearing::hear_statement;
use crate::joining::join_deal;
use crate::loading::open_over;
use crate::refused::AgentRefused;
use crate::signing::{give_again, give_commit, give_late, give_next, give_text};
use crate::state::AgentState;
use crate::todo::Todo;
use crate::wanted::Wanted;
use act_text::Statement;
use clear_core::Terms;
use dh_base::{Id, Outcome};
use joined_deals::AgentFault;
use keeper_core::{Arm, Keeper, MemKeeper};
use key_ring::{Envelope, KeySpec};
use std::alloc::Global;
use std::marker::Model;

/// An agent of a party over a keeper. A contract sees the keeper, what the agent's ring is made
/// from, and what it has joined, signed and heard.
#[derive(Drop)]
pub struct Agent<K: Keeper> {
    alloc: Global,
    keeper: K,
    state: AgentState,
}

impl<K: Keeper> Model for Agent<K> {
    ghost use Rattle.agent_core.specs.AgentSeen.{AgentSeen, seen_in, KeepsUp};

    ghost Value = { AgentSeen K };

    ghost view = { λ a. seen_in a.keeper a.state };

    ghost invariant = { λ a. KeepsUp (K.known a.keeper) a.state };
}

impl<K: Keeper> Agent<K> {
    /// Opens the agent of a ring in a house over a keeper: it has the deals and the texts that are
    /// kept, and has heard nothing. Empty tables are named by one commit. With every refusal the
    /// keeper comes back.
    pub fn open(
        alloc: Global,
        keeper: K,
        spec: &KeySpec,
        house: &Id,
    ) -> Result<Agent<K>, AgentRefused<K>>
        ensures opens { Opens spec.now house.now (agent_of result) (K.known keeper)
            (K.known (kept_by result)) }
        ensures spec { IfOk result (λ seen. seen.spec ≡ spec.now) }
        ensures cause { IfErr result (λ refused. OpenCause spec.now house.now
            (K.known refused.keeper).tables refused.fault) }
        // A keeper that has stopped, or is to fail next, opens no agent.
        ensures fails { FailsNext (K.known keeper) → IsErr result }
    {
        let mut keeper = keeper;
        match open_over(alloc, &mut keeper, spec, house) {
            Ok(state) => Ok(Agent {
                alloc,
                keeper,
                state,
            }),
            Err(fault) => Err(AgentRefused { keeper, fault }),
        }
    }

    /// Gives the keeper back as it is.
    pub fn close(self) -> K
        ensures { result ≡ self.keeper }
    {
        let Agent { keeper, .. } = self;
        keeper
    }

    /// The keeper.
    pub fn keeper(&self) -> &K
        ensures { result.now ≡ self.now.keeper }
    {
        &self.keeper
    }

    /// Joins the deal of a text, if it keeps the terms, and the keys that are not held for other
    /// deals suffice for it. The answer is its id.
    pub fn join(&mut self, text: &[u8], terms: &Terms) -> Result<Id, AgentFault>
        ensures joins { JoinsOrNot text.now terms.now self.old self.new result
            (K.known self.old.keeper) (K.known self.new.keeper) }
        ensures step { AgentStep self.old.agent self.new.agent }
    {
        join_deal(self.alloc, &mut self.keeper, &mut self.state, text, terms)
    }

    /// Gives the first act of the deal's plan that is not signed yet.
    pub fn next(&mut self, deal: &Id) -> Result<Todo, AgentFault>
        ensures gives { Gives (next_refusal self.old.agent deal.now) (IsTodo self.old deal.now)
            (next_in self.old.agent deal.now) self.old self.new result
            (K.known self.old.keeper) (K.known self.new.keeper) }
        ensures step { AgentStep self.old.agent self.new.agent }
    {
        give_next(&mut self.keeper, &mut self.state, deal)
    }

    /// Gives the act of the deal's plan at that place again.
    pub fn again(&mut self, deal: &Id, place: u16) -> Result<Envelope, AgentFault>
        ensures gives { Gives (again_refusal self.old.agent deal.now place)
            (IsEnvelope self.old (wanted_in self.old.agent deal.now (Act place)))
            (wanted_in self.old.agent deal.now (Act place)) self.old self.new result
            (K.known self.old.keeper) (K.known self.new.keeper) }
        ensures same { self.new.agent ≡ self.old.agent }
    {
        give_again(&mut self.keeper, &mut self.state, deal, place)
    }

    /// Gives the start of the deal.
    pub fn start(&mut self, deal: &Id) -> Result<Envelope, AgentFault>
        ensures gives { Gives (unjoined self.old.agent deal.now)
            (IsEnvelope self.old (start_in self.old.agent deal.now))
            (start_in self.old.agent deal.now) self.old self.new result
            (K.known self.old.keeper) (K.known self.new.keeper) }
        ensures step { AgentStep self.old.agent self.new.agent }
    {
        give_text(&mut self.keeper, &mut self.state, deal, Wanted::Start)
    }

    /// Takes what a ledger tells. A statement of a ledger is kept in place of the one before,
    /// unless that is newer.
    pub fn hear(&mut self, statement: &Statement) -> Result<Heard, AgentFault>
        ensures hears { HearsOrNot statement.now self.old.agent self.new.agent result }
        ensures step { AgentStep self.old.agent self.new.agent }
        ensures rest { self.new ≡ record self.old { agent = self.new.agent } }
    {
        hear_statement(self.alloc, &mut self.state, statement)
    }

    /// Gives the commit of the deal, where the deal is validated and no abort of it is signed.
    pub fn vote_commit(&mut self, deal: &Id) -> Result<Envelope, AgentFault>
        ensures gives { Gives (commit_refusal self.old.agent deal.now)
            (IsEnvelope self.old (vote_in self.old.agent deal.now Commit))
            (vote_in self.old.agent deal.now Commit) self.old self.new result
            (K.known self.old.keeper) (K.known self.new.keeper) }
        ensures step { AgentStep self.old.agent self.new.agent }
    {
        give_commit(self.alloc, &mut self.keeper, &mut self.state, deal)
    }

    /// Gives the abort of the deal.
    pub fn vote_abort(&mut self, deal: &Id) -> Result<Envelope, AgentFault>
        ensures gives { Gives (unjoined self.old.agent deal.now)
            (IsEnvelope self.old (vote_in self.old.agent deal.now Abort))
            (vote_in self.old.agent deal.now Abort) self.old self.new result
            (K.known self.old.keeper) (K.known self.new.keeper) }
        ensures step { AgentStep self.old.agent self.new.agent }
    {
        give_text(
            &mut self.keeper,
            &mut self.state,
            deal,
            Wanted::Vote(Outcome::Abort),
        )
    }

    /// Gives the abort of the deal, if its deadline is reached and it is not heard settled.
    pub fn tick(&mut self, deal: &Id, now: u64) -> Result<Option<Envelope>, AgentFault>
        ensures gives { Gives (unjoined self.old.agent deal.now)
            (IsEnvelopeIf self.old (tick_in self.old.agent deal.now now))
            (tick_in self.old.agent deal.now now) self.old self.new result
            (K.known self.old.keeper) (K.known self.new.keeper) }
        ensures step { AgentStep self.old.agent self.new.agent }
    {
        give_late(&mut self.keeper, &mut self.state, deal, now)
    }
}

impl Agent<MemKeeper> {
    /// Tells the keeper to fail or to stop.
    pub fn arm(&mut self, what: Arm)
        ensures { self.new ≡ record self.old {
          keeper = record self.old.keeper { armed = Some what };
        } }
    {
        self.keeper.arm(what);
    }
}
