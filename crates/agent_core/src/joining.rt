//! Joining deals.

ghost use Rattle.std.specs.Prelude.{◌≡◌, ◌<◌, ◌^◌, ◌++◌, [], ◌∷◌, List, ℕ, length, IfOk, IfErr, OnOk, OnErr};
ghost use Rattle.clear_core.specs.declared.terms.Terms.{Terms};
ghost use Rattle.keeper_core.specs.Leaving.{Leaves, ended, failed};
ghost use Rattle.joined_deals.specs.AgentFaults.{of_agent_fault};
ghost use Rattle.joined_deals.specs.Agents.{HasKeys};
ghost use Rattle.joined_deals.specs.AgentCalls.{IsJoinable, IsJoinFault, IsStoreOnly};
ghost use Rattle.agent_core.specs.AgentSeen.{agent_in, seen_in, KeepsUp};
ghost use Rattle.agent_core.specs.AgentDoes.{JoinsOrNot};
ghost use Rattle.agent_core.specs.AgentTables.{deal_changes};
ghost use Rattle.agent_core.specs.Offers.{IsOffer};

use crate::rows::deal_batch;
use crate::state::AgentState;
use clear_core::{Terms, check_terms};
use deal_core::{Deal, party_of, read_deal};
use dh_base::Id;
use joined_deals::{AgentFault, JoinedDeal};
use keeper_core::Keeper;
use std::alloc::Global;

/// A deal that the party of that index may join, if its terms are kept and the keys suffice.
#[derive(Drop)]
struct Offer {
    deal: Deal,
    index: u16,
}

/// The deal of a text.
fn offer_of(alloc: Global, state: &AgentState, text: &[u8]) -> Result<Offer, AgentFault>
    ensures offer { IfOk result (IsOffer (agent_in state.now) text.now) }
    ensures index { IfOk result (λ offer. offer.index < length offer.deal.parties) }
    ensures cause { (terms : Terms) → IfErr result
        (IsJoinFault (agent_in state.now) text.now terms) }
    ensures unfailed { IfErr result (λ fault. of_agent_fault fault ≡ failed → ⊥) }
{
    let deal = read_deal(alloc, text)?;
    if let Some(fault) = state.early_refusal(&deal) {
        return Err(fault);
    }
    match party_of(&deal, &state.account) {
        Some(index) => Ok(Offer { deal, index }),
        None => Err(AgentFault::NotAParty),
    }
}

/// The deal of the offer, where it keeps the terms and the keys suffice.
fn checked(
    alloc: Global,
    state: &AgentState,
    offer: Offer,
    terms: &Terms,
) -> Result<JoinedDeal, AgentFault>
    requires index { offer.index < length offer.deal.parties }
    requires keys { HasKeys (agent_in state.now) }
    ensures joinable { (text : List ℕ) → IsOffer (agent_in state.now) text offer
        → IfOk result (IsJoinable (agent_in state.now) text terms.now) }
    ensures cause { (text : List ℕ) → IsOffer (agent_in state.now) text offer
        → IfErr result (IsJoinFault (agent_in state.now) text terms.now) }
    ensures unfailed { IfErr result (λ fault. of_agent_fault fault ≡ failed → ⊥) }
    ensures small { IfOk result (λ joined. joined.deadline < 2 ^ 64) }
{
    check_terms(&offer.deal, offer.index, terms)?;
    let Offer { deal, index } = offer;
    let joined = JoinedDeal::new(alloc, deal, index, terms.deadline)?;
    let left = state.keys_left();
    let needed = joined.keys_needed();
    if left < needed {
        return Err(AgentFault::KeysShort { left, needed });
    }
    Ok(joined)
}

/// Keeps a deal that is joined.
fn keep_deal<K: Keeper>(
    alloc: Global,
    keeper: &mut K,
    deals: &mut Vec<JoinedDeal>,
    joined: JoinedDeal,
) -> Result<Id, AgentFault>
    ensures id { IfOk result (λ id. id ≡ joined.deal.id) }
    ensures kept { OnOk result (deals.new.items ≡ deals.old.items ++ joined ∷ []) }
    ensures unchanged { OnErr result (deals.new.items ≡ deals.old.items) }
    ensures leaves { Leaves (deal_changes joined ∷ []) (ended of_agent_fault result)
        (K.known keeper.old) (K.known keeper.new) }
    ensures store { IfErr result IsStoreOnly }
{
    let id = joined.id();
    let batch = deal_batch(alloc, &joined)?;
    deals.push(joined)?;
    if let Err(fault) = keeper.commit(&batch) {
        deals.pop();
        return Err(AgentFault::from(fault));
    }
    Ok(id)
}

/// Joins the deal of a text, if its terms are kept and the keys suffice.
pub(crate) fn join_deal<K: Keeper>(
    alloc: Global,
    keeper: &mut K,
    state: &mut AgentState,
    text: &[u8],
    terms: &Terms,
) -> Result<Id, AgentFault>
    requires { KeepsUp (K.known keeper.old) state.old }
    ensures joins { JoinsOrNot text.now terms.now
        (seen_in keeper.old state.old) (seen_in keeper.new state.new) result
        (K.known keeper.old) (K.known keeper.new) }
    ensures keeps { KeepsUp (K.known keeper.new) state.new }
{
    let offer = offer_of(alloc, state, text)?;
    let joined = checked(alloc, state, offer, terms)?;
    keep_deal(alloc, keeper, &mut state.deals, joined)
}
