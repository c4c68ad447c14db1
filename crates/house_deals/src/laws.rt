//! Laws of declared deals.

ghost use Rattle.std.specs.Prelude.{◌≡◌, ◌≤◌, ◌↔◌, ℕ, List, true};
ghost use Rattle.std.specs.List.{AllByRecursion};
ghost use Rattle.deal_core.specs.Deals.{IsConnected};
ghost use Rattle.deal_core.specs.declared.step.Step.{Step};
ghost use Rattle.house_deals.specs.Connected.{is_connected};
ghost use Rattle.house_deals.specs.DealSteps.{IsWithin};

/// The marks tell that the parties of a deal are connected exactly where along its steps each of
/// them reaches each other one.
pub fn connected()
    ensures { (steps : List Step) (parties : ℕ) → parties ≤ 16
        → AllByRecursion (IsWithin parties) steps →
        ((is_connected steps parties ≡ true) ↔ IsConnected steps parties) }
{}
