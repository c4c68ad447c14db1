//! The ledgers and assets that a deal moves.

ghost use Rattle.std.specs.Prelude.{◌≡◌, IfOk, List};
ghost use Rattle.clear_core.specs.Pairs.{pairs_of};

use deal_core::Step;
use dh_base::{Name, NoMemory};
use std::alloc::Global;
use std::collections::BTreeSet;

/// An asset on a ledger. Pairs are ordered by the ledger, and then by the asset.
#[derive(Clone, Copy, PartialEq, Eq, PartialOrd, Ord)]
pub struct Pair {
    pub ledger: Name,
    pub asset: Name,
}

impl Pair {
    ghost use Rattle.std.specs.Prelude.{◌≡◌};
    ghost use Rattle.clear_core.specs.Pairs.{pair_of};

    /// The ledger and the asset of the step.
    pub(crate) fn of(step: &Step) -> Pair
        ensures { result ≡ pair_of step.now }
    {
        Pair {
            ledger: step.ledger,
            asset: step.asset,
        }
    }
}

/// The pairs that the steps move, once each.
fn set_of(alloc: Global, steps: &[Step]) -> Result<BTreeSet<Pair>, NoMemory>
    ensures { IfOk result (λ set. set.keys ≡ pairs_of steps.now) }
{
    let mut set = BTreeSet::new(alloc);
    for step in steps {
        set.insert(Pair::of(step))?;
    }
    Ok(set)
}

/// The pairs that the steps move, in ascending order, once each.
pub fn pairs(alloc: Global, steps: &[Step]) -> Result<Vec<Pair>, NoMemory>
    ensures { IfOk result (λ pairs. pairs.items ≡ pairs_of steps.now) }
{
    let set = set_of(alloc, steps)?;
    let pairs: Vec<Pair> = set.iter().copied().collect(alloc)?;
    Ok(pairs)
}
