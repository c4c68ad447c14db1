//! What a step moves for a party.

ghost use Rattle.std.specs.Prelude.{◌≡◌};
ghost use Rattle.deal_core.specs.Deals.{amount_if};
ghost use Rattle.clear_core.specs.Clearing.{is_out, is_in, is_turn};

use deal_core::Step;
use dh_base::Name;

/// What goes out from the party of the asset on the ledger.
pub(crate) fn sent(step: &Step, party: u16, ledger: &Name, asset: &Name) -> u64
    ensures { result ≡ amount_if (is_out party ledger.now asset.now) step.now }
{
    if party == step.from && step.is_of(ledger, asset) {
        step.amount
    } else {
        0
    }
}

/// What comes in to the party of the asset on the ledger.
pub(crate) fn received(step: &Step, party: u16, ledger: &Name, asset: &Name) -> u64
    ensures { result ≡ amount_if (is_in party ledger.now asset.now) step.now }
{
    if party == step.to && step.is_of(ledger, asset) {
        step.amount
    } else {
        0
    }
}

/// Whether it is a step of the party's own on the ledger.
pub(crate) fn is_turn(step: &Step, party: u16, ledger: &Name) -> bool
    ensures { result ≡ is_turn party ledger.now step.now }
{
    party == step.from && *ledger == step.ledger
}
