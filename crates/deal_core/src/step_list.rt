//! What the steps so far name and move.

ghost use Rattle.std.specs.Prelude.{◌≡◌, ◌<◌, ◌≤◌, ◌^◌, length};
ghost use Rattle.deal_core.specs.Deals.{total_of};
ghost use Rattle.deal_core.specs.Kept.{is_on, ledger_count};

use crate::step::Step;
use dh_base::Name;

/// What the steps move of the asset on the ledger in all.
pub(crate) fn total(steps: &[Step], ledger: &Name, asset: &Name) -> u64
    requires { total_of steps.now ledger.now asset.now < 2 ^ 63 }
    ensures { result ≡ total_of steps.now ledger.now asset.now }
{
    let mut sum = 0;
    for step in steps {
        if step.is_of(ledger, asset) {
            sum += step.amount;
        }
    }
    sum
}

/// Whether one of the steps is on the ledger.
pub(crate) fn is_on(steps: &[Step], ledger: &Name) -> bool
    ensures { result ≡ is_on steps.now ledger.now }
{
    steps.iter().any(|step| *ledger == step.ledger)
}

/// How many ledgers the steps name.
pub(crate) fn ledger_count(steps: &[Step]) -> usize
    ensures { result ≡ ledger_count steps.now }
{
    let mut count = 0;
    for (place, step) in steps.iter().enumerate() {
        if !is_on(&steps[..place], &step.ledger) {
            count += 1;
        }
    }
    count
}
