//! Signing the texts of joined deals.

ghost use Rattle.std.specs.Prelude.{◌≡◌, ◌≤◌, ◌<◌, length, None, IfOk, IfErr, OnOk, OnErr};
ghost use Rattle.keeper_core.specs.Leaving.{Leaves, ended};
ghost use Rattle.key_ring.specs.Signers.{key_of, key_for, envelope_by, after_signing};
ghost use Rattle.key_ring.specs.UsedTexts.{IsBacked, batches_for};
ghost use Rattle.joined_deals.specs.AgentFaults.{of_agent_fault};
ghost use Rattle.joined_deals.specs.AgentCalls.{IsStoreOnly, next_refusal, next_in, again_refusal, commit_refusal, vote_in, unjoined, tick_in};
ghost use Rattle.dh_base.specs.declared.outcome.Outcome.TheVariants.{Commit};
ghost use Rattle.agent_core.specs.declared.wanted.Wanted.TheVariants.{Act};
ghost use Rattle.agent_core.specs.AgentSeen.{agent_in, seen_in, KeepsUp};
ghost use Rattle.agent_core.specs.AgentDoes.{Gives, IsEnvelope, IsEnvelopeIf, IsTodo};
ghost use Rattle.agent_core.specs.WantedTexts.{wanted_in, wanted_refusal};

use crate::state::{AgentState, joined_in};
use crate::todo::Todo;
use crate::wanted::Wanted;
use dh_base::{Id, Outcome};
use joined_deals::AgentFault;
use keeper_core::Keeper;
use key_ring::{Envelope, SignFault, Signer};
use std::alloc::Global;

/// Signs a text for which there is a key, if it is not signed yet.
fn sign_text<K: Keeper>(
    keeper: &mut K,
    signer: &mut Signer,
    text: &[u8],
) -> Result<Envelope, AgentFault>
    requires short { length text.now ≤ 16384 }
    requires backed { IsBacked (K.known keeper.old) signer.old.texts }
    requires room { key_of signer.old text.now ≡ None
        → length signer.old.texts < signer.old.spec.size }
    ensures envelope { IfOk result (λ env. env ≡ envelope_by signer.old
        (key_for signer.old text.now) text.now) }
    ensures signed { OnOk result (signer.new ≡ after_signing signer.old text.now) }
    ensures unchanged { OnErr result (signer.new ≡ signer.old) }
    ensures leaves { Leaves (batches_for signer.old text.now) (ended of_agent_fault result)
        (K.known keeper.old) (K.known keeper.new) }
    ensures store { IfErr result IsStoreOnly }
    ensures backed { IsBacked (K.known keeper.new) signer.new.texts }
{
    match signer.sign(keeper, text, 0) {
        Ok(env) => Ok(env),
        Err(SignFault::KeysSpent { .. }) => unreachable!(),
        Err(SignFault::Store { fault }) => Err(AgentFault::from(fault)),
    }
}

/// Signs a text of the deal, if it is joined and has such a text.
pub(crate) fn give_text<K: Keeper>(
    keeper: &mut K,
    state: &mut AgentState,
    deal: &Id,
    wanted: Wanted,
) -> Result<Envelope, AgentFault>
    requires { KeepsUp (K.known keeper.old) state.old }
    ensures gives { Gives (wanted_refusal (agent_in state.old) deal.now wanted)
        (IsEnvelope (seen_in keeper.old state.old) (wanted_in (agent_in state.old) deal.now wanted))
        (wanted_in (agent_in state.old) deal.now wanted)
        (seen_in keeper.old state.old) (seen_in keeper.new state.new) result
        (K.known keeper.old) (K.known keeper.new) }
    ensures keeps { KeepsUp (K.known keeper.new) state.new }
{
    let Some(joined) = joined_in(&state.deals, deal) else {
        return Err(AgentFault::NotJoined);
    };
    let Some(text) = wanted.text_in(joined) else {
        return Err(AgentFault::NotJoined);
    };
    sign_text(keeper, &mut state.signer, text)
}

/// Gives the next act of the deal.
pub(crate) fn give_next<K: Keeper>(
    keeper: &mut K,
    state: &mut AgentState,
    deal: &Id,
) -> Result<Todo, AgentFault>
    requires { KeepsUp (K.known keeper.old) state.old }
    ensures gives { Gives (next_refusal (agent_in state.old) deal.now)
        (IsTodo (seen_in keeper.old state.old) deal.now)
        (next_in (agent_in state.old) deal.now)
        (seen_in keeper.old state.old) (seen_in keeper.new state.new) result
        (K.known keeper.old) (K.known keeper.new) }
    ensures keeps { KeepsUp (K.known keeper.new) state.new }
{
    if let Some(fault) = state.next_refusal(deal) {
        return Err(fault);
    }
    let Some(due) = state.next_due(deal) else {
        return Ok(Todo::Nothing);
    };
    let env = give_text(keeper, state, deal, Wanted::Act(usize::from(due.place)))?;
    Ok(Todo::Give { act: due.act, env })
}

/// Gives an act of the deal that is signed.
pub(crate) fn give_again<K: Keeper>(
    keeper: &mut K,
    state: &mut AgentState,
    deal: &Id,
    place: u16,
) -> Result<Envelope, AgentFault>
    requires { KeepsUp (K.known keeper.old) state.old }
    ensures gives { Gives (again_refusal (agent_in state.old) deal.now place)
        (IsEnvelope (seen_in keeper.old state.old)
        (wanted_in (agent_in state.old) deal.now (Act place)))
        (wanted_in (agent_in state.old) deal.now (Act place))
        (seen_in keeper.old state.old) (seen_in keeper.new state.new) result
        (K.known keeper.old) (K.known keeper.new) }
    ensures keeps { KeepsUp (K.known keeper.new) state.new }
{
    if let Some(fault) = state.again_refusal(deal, place) {
        return Err(fault);
    }
    give_text(keeper, state, deal, Wanted::Act(usize::from(place)))
}

/// Gives the commit of the deal.
pub(crate) fn give_commit<K: Keeper>(
    alloc: Global,
    keeper: &mut K,
    state: &mut AgentState,
    deal: &Id,
) -> Result<Envelope, AgentFault>
    requires { KeepsUp (K.known keeper.old) state.old }
    ensures gives { Gives (commit_refusal (agent_in state.old) deal.now)
        (IsEnvelope (seen_in keeper.old state.old) (vote_in (agent_in state.old) deal.now Commit))
        (vote_in (agent_in state.old) deal.now Commit)
        (seen_in keeper.old state.old) (seen_in keeper.new state.new) result
        (K.known keeper.old) (K.known keeper.new) }
    ensures keeps { KeepsUp (K.known keeper.new) state.new }
{
    if let Some(fault) = state.commit_refusal(alloc, deal)? {
        return Err(fault);
    }
    give_text(keeper, state, deal, Wanted::Vote(Outcome::Commit))
}

/// Gives an abort of the deal once its deadline is reached, unless it is heard settled.
pub(crate) fn give_late<K: Keeper>(
    keeper: &mut K,
    state: &mut AgentState,
    deal: &Id,
    now: u64,
) -> Result<Option<Envelope>, AgentFault>
    requires { KeepsUp (K.known keeper.old) state.old }
    ensures gives { Gives (unjoined (agent_in state.old) deal.now)
        (IsEnvelopeIf (seen_in keeper.old state.old) (tick_in (agent_in state.old) deal.now now))
        (tick_in (agent_in state.old) deal.now now)
        (seen_in keeper.old state.old) (seen_in keeper.new state.new) result
        (K.known keeper.old) (K.known keeper.new) }
    ensures keeps { KeepsUp (K.known keeper.new) state.new }
{
    match state.is_waiting(deal, now) {
        None => Err(AgentFault::NotJoined),
        Some(true) => Ok(None),
        Some(false) => {
            let env = give_text(keeper, state, deal, Wanted::Vote(Outcome::Abort))?;
            Ok(Some(env))
        }
    }
}
