//! The plan of a party.

ghost use Rattle.std.specs.Prelude.{◌≡◌, ◌++◌, ◌≤◌, ◌<◌, [], ◌∷◌, length, IfOk, OnOk};
ghost use Rattle.deal_core.specs.Limits.{most_steps};
ghost use Rattle.clear_core.specs.Plans.{escrow_of, escrows_of, transfer_of, transfers_behind, plan_of};

use crate::clearing::{count_turns, need};
use crate::pair::{Pair, pairs};
use crate::plan_act::PlanAct;
use deal_core::{Deal, Step};
use dh_base::{List, NoMemory};
use std::alloc::Global;

/// Adds the party's escrow of the pair, where it needs one.
fn push_escrow(
    deal: &Deal,
    party: u16,
    pair: &Pair,
    acts: &mut Vec<PlanAct>,
) -> Result<(), NoMemory>
    requires { party < length deal.now.parties }
    ensures { OnOk result (acts.new.items
        ≡ acts.old.items ++ escrow_of deal.now.steps party pair.now) }
{
    let amount = need(deal, party, &pair.ledger, &pair.asset);
    if amount > 0 {
        acts.push(PlanAct::Escrow {
            ledger: pair.ledger,
            asset: pair.asset,
            amount,
        })?;
    }
    Ok(())
}

/// Adds the party's escrows of the pairs.
fn push_escrows(
    deal: &Deal,
    party: u16,
    pairs: &[Pair],
    acts: &mut Vec<PlanAct>,
) -> Result<(), NoMemory>
    requires { party < length deal.now.parties }
    ensures { OnOk result (acts.new.items
        ≡ acts.old.items ++ escrows_of deal.now.steps party pairs.now) }
{
    for pair in pairs {
        push_escrow(deal, party, pair, acts)?;
    }
    Ok(())
}

/// Adds the transfer of a step that stands behind those before, where it is the party's own.
fn push_transfer(
    party: u16,
    before: &[Step],
    step: &Step,
    acts: &mut Vec<PlanAct>,
) -> Result<(), NoMemory>
    requires { length before.now ≤ most_steps }
    ensures { OnOk result (acts.new.items
        ≡ acts.old.items ++ transfer_of party before.now step.now) }
{
    if party == step.from {
        acts.push(PlanAct::Transfer {
            ledger: step.ledger,
            turn: count_turns(before, party, &step.ledger),
            to: step.to,
            asset: step.asset,
            amount: step.amount,
        })?;
    }
    Ok(())
}

/// Adds the transfers of the party's own steps.
fn push_transfers(party: u16, steps: &[Step], acts: &mut Vec<PlanAct>) -> Result<(), NoMemory>
    requires { length steps.now ≤ most_steps }
    ensures { OnOk result (acts.new.items ≡ acts.old.items ++ transfers_behind party [] steps.now) }
{
    for (place, step) in steps.iter().enumerate() {
        push_transfer(party, &steps[..place], step, acts)?;
    }
    Ok(())
}

/// What the party does in the deal, in order: it registers the deal, escrows its needs, and makes
/// its own steps.
pub fn plan(alloc: Global, deal: &Deal, party: u16) -> Result<List<PlanAct>, NoMemory>
    requires { party < length deal.now.parties }
    ensures { IfOk result (λ acts. acts ≡ plan_of deal.now.steps party) }
{
    let pairs = pairs(alloc, deal.steps())?;
    let mut acts = Vec::new(alloc);
    acts.push(PlanAct::Register)?;
    push_escrows(deal, party, pairs.as_slice(), &mut acts)?;
    push_transfers(party, deal.steps(), &mut acts)?;
    Ok(List::from_vec(acts))
}
