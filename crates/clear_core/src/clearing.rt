//! What a deal needs of a party, what it owes the party, and how often the party transfers.

ghost use Rattle.std.specs.Prelude.{◌≡◌, ◌+◌, ◌≤◌, ◌<◌, ◌^◌, ℕ, length};
ghost use Rattle.deal_core.specs.Limits.{most_steps};
ghost use Rattle.clear_core.specs.Clearing.{outgoing, incoming, need_of, due_of, turns_of};
ghost use Rattle.clear_core.specs.Holdings.{IsNeverBelowZero};

use crate::flow::{is_turn, received, sent};
use deal_core::{Deal, Step};
use dh_base::Name;

/// The greatest excess of what went out over what came in, over all prefixes of the steps.
fn greatest_excess(steps: &[Step], party: u16, ledger: &Name, asset: &Name) -> u64
    requires went { outgoing steps.now party ledger.now asset.now < 2 ^ 63 }
    requires came { incoming steps.now party ledger.now asset.now < 2 ^ 63 }
    ensures { result ≡ need_of steps.now party ledger.now asset.now }
{
    let mut went = 0;
    let mut came = 0;
    let mut need = 0;
    for step in steps {
        went += sent(step, party, ledger, asset);
        came += received(step, party, ledger, asset);
        need = need.max(went.saturating_sub(came));
    }
    need
}

/// The party's least escrow of the asset on the ledger: what it must begin with so that no step
/// takes it below zero.
pub fn need(deal: &Deal, party: u16, ledger: &Name, asset: &Name) -> u64
    requires { party < length deal.now.parties }
    ensures value { result ≡ need_of deal.now.steps party ledger.now asset.now }
    ensures funds { IsNeverBelowZero result deal.now.steps party ledger.now asset.now }
    ensures least { (begins : ℕ) → IsNeverBelowZero begins deal.now.steps party ledger.now asset.now
        → result ≤ begins }
    ensures small { result < 2 ^ 63 }
{
    greatest_excess(deal.steps(), party, ledger, asset)
}

/// What comes in to the party in all, and what goes out.
fn flows(steps: &[Step], party: u16, ledger: &Name, asset: &Name) -> (u64, u64)
    requires went { outgoing steps.now party ledger.now asset.now < 2 ^ 63 }
    requires came { incoming steps.now party ledger.now asset.now < 2 ^ 63 }
    ensures came { result.0 ≡ incoming steps.now party ledger.now asset.now }
    ensures went { result.1 ≡ outgoing steps.now party ledger.now asset.now }
{
    let mut came = 0;
    let mut went = 0;
    for step in steps {
        came += received(step, party, ledger, asset);
        went += sent(step, party, ledger, asset);
    }
    (came, went)
}

/// What the deal owes the party of the asset on the ledger, if it commits: the escrow and all that
/// comes in, less all that goes out.
pub fn due(deal: &Deal, party: u16, ledger: &Name, asset: &Name) -> u64
    requires { party < length deal.now.parties }
    ensures value { result ≡ due_of deal.now.steps party ledger.now asset.now }
    ensures not_cut { result + outgoing deal.now.steps party ledger.now asset.now
        ≡ need_of deal.now.steps party ledger.now asset.now
        + incoming deal.now.steps party ledger.now asset.now }
    ensures small { result < 2 ^ 63 }
{
    let (came, went) = flows(deal.steps(), party, ledger, asset);
    need(deal, party, ledger, asset) + came - went
}

/// How many of the steps are the party's own on the ledger.
pub(crate) fn count_turns(steps: &[Step], party: u16, ledger: &Name) -> u32
    requires { length steps.now ≤ most_steps }
    ensures { result ≡ turns_of steps.now party ledger.now }
{
    let mut count = 0;
    for step in steps {
        if is_turn(step, party, ledger) {
            count += 1;
        }
    }
    count
}

/// How many transfers the party makes on the ledger.
pub fn turns(deal: &Deal, party: u16, ledger: &Name) -> u32
    requires { party < length deal.now.parties }
    ensures { result ≡ turns_of deal.now.steps party ledger.now }
{
    count_turns(deal.steps(), party, ledger)
}
