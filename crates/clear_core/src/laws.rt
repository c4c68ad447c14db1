//! Laws of what deals need.

ghost use Rattle.std.specs.Prelude.{◌≡◌, ◌↔◌, ◌≤◌, ◌<◌, ℕ, List, length};
ghost use Rattle.std.specs.List.{Contains};
ghost use Rattle.deal_core.specs.Deals.{DealTold};
ghost use Rattle.deal_core.specs.Kept.{IsDeal};
ghost use Rattle.clear_core.specs.Clearing.{need_of, due_of};
ghost use Rattle.clear_core.specs.Holdings.{Holdings, Funds, of_all};
ghost use Rattle.clear_core.specs.Pairs.{pairs_of, IsMoved, Ascend};
ghost use Rattle.clear_core.specs.Plans.{plan_of, escrowed_in};
ghost use Rattle.deal_core.specs.declared.step.Step.{Step};
ghost use Rattle.clear_core.specs.declared.pair.Pair.{Pair};
ghost use Rattle.clear_core.specs.declared.plan_act.PlanAct.TheVariants.{Escrow};

/// Where each party begins with its need of each asset, no step takes any amount below zero; and
/// holdings with that property are nowhere less than the needs.
pub fn least_escrow()
    ensures funds { (deal : DealTold) → IsDeal deal → Funds (need_of deal.steps) deal.steps }
    ensures least { (deal : DealTold) → IsDeal deal → (begins : Holdings)
        → Funds begins deal.steps →
        (party : ℕ) (ledger asset : List ℕ)
        → need_of deal.steps party ledger asset ≤ begins party ledger asset }
{}

/// What a deal owes its parties together is what it needs of them together, of each asset on each
/// ledger.
pub fn dues_are_needs()
    ensures { (deal : DealTold) → IsDeal deal → (ledger asset : List ℕ) →
        of_all (λ party. due_of deal.steps party ledger asset) (length deal.parties)
        ≡ of_all (λ party. need_of deal.steps party ledger asset) (length deal.parties) }
{}

/// The pairs of a deal are those that its steps move, once each, in ascending order.
pub fn moved_pairs()
    ensures moved { (steps : List Step) (pair : Pair)
        → Contains (pairs_of steps) pair ↔ IsMoved steps pair }
    ensures ascend { (steps : List Step) → Ascend (pairs_of steps) }
{}

/// A plan escrows exactly the needs above 0, each once.
pub fn escrowed_needs()
    ensures total { (steps : List Step) (party : ℕ) (ledger asset : List ℕ) →
        escrowed_in (plan_of steps party) ledger asset ≡ need_of steps party ledger asset }
    ensures each { (steps : List Step) (party : ℕ) (ledger asset : List ℕ) (amount : ℕ) →
        Contains (plan_of steps party) (Escrow ledger asset amount)
        ↔ ((0 < amount) × (amount ≡ need_of steps party ledger asset)) }
{}
