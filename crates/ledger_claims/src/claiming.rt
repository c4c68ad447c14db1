//! Claims as a whole, by their certificates.

ghost use Rattle.std.specs.Prelude.{◌≡◌, Ok, Some};
ghost use Rattle.std.specs.Result.{IsErrOf};
ghost use Rattle.cert_core.specs.Sets.{SetTold};
ghost use Rattle.claim_core.specs.Certificates.{Certifies};
ghost use Rattle.claim_core.specs.Limits.{IsSmall};
ghost use Rattle.keeper_core.specs.Knowing.{FailsNext};
ghost use Rattle.ledger_rows.specs.RowReading.{Reads, LacksForm, deal_said, deal_refusal};
ghost use Rattle.vote_log.specs.declared.decision.Decision.{Decision};
ghost use Rattle.vote_log.specs.Deciding.{outcome_of};
ghost use Rattle.ledger_claims.specs.ClaimStep.{decided_by};
ghost use Rattle.ledger_claims.specs.Claiming.{ClaimsByRows, ClaimsByStep, AcceptsClaim};

use crate::claim_reply::ClaimReply;
use crate::settling::settle;
use crate::show_fault::ShowFault;
use cert_core::Set;
use claim_core::{Claim, certified};
use dh_base::{Id, Outcome};
use keeper_core::{Keeper, StoreFault};
use ledger_rows::{DEAL_TAB, Registration, read_row};
use std::alloc::Global;
use vote_log::outcome;

/// A deal, where it is registered.
fn read_deal_row<K: Keeper>(
    alloc: Global,
    keeper: &mut K,
    deal: &Id,
) -> Result<Option<Registration>, StoreFault>
    ensures reads { Reads 1 (deal_said deal.now) (deal_refusal deal.now) LacksForm result
        (K.known keeper.old) (K.known keeper.new) }
    ensures fails { FailsNext (K.known keeper.old) → IsErrOf result StoreFault.Keeper }
{
    read_row(alloc, keeper, DEAL_TAB, &deal.0)
}

/// What the claim decides of the deal.
fn decide(genesis: &Set, deal: &Id, claim: &Claim) -> Result<Outcome, ShowFault>
    requires first { genesis.now.epoch ≡ 0 }
    requires small { IsSmall claim.now }
    ensures exact { result ≡ decided_by genesis.now deal.now claim.now }
    ensures decides { (set : SetTold) (decision : Decision) → Certifies genesis.now claim.now set
        → outcome_of claim.now.recs deal.now ≡ Some decision → result ≡ Ok decision.outcome }
{
    let _certified = certified(genesis, claim)?;
    match outcome(claim.recs.as_slice(), deal) {
        Some(decision) => Ok(decision.outcome),
        None => Err(ShowFault::Undecided {
            len: claim.recs.len() as u32,
        }),
    }
}

/// Answers a claim on a deal by the rows.
fn claim_by_rows<K: Keeper>(
    alloc: Global,
    keeper: &mut K,
    genesis: &Set,
    number: u64,
    deal: &Id,
    claim: &Claim,
) -> Result<ClaimReply, ShowFault>
    requires first { genesis.now.epoch ≡ 0 }
    requires small { IsSmall claim.now }
    ensures rows { ClaimsByRows genesis.now number deal.now claim.now result
        (K.known keeper.old) (K.known keeper.new) }
    ensures accepts { AcceptsClaim genesis.now deal.now claim.now result
        (K.known keeper.old) (K.known keeper.new) }
    ensures fails { FailsNext (K.known keeper.old)
        → IsErrOf result (ShowFault.Store StoreFault.Keeper) }
{
    let Some(found) = read_deal_row(alloc, keeper, deal)? else {
        return Err(ShowFault::UnknownDeal);
    };
    if let Some(outcome) = found.settled {
        return Ok(ClaimReply::Already { outcome });
    }
    let outcome = decide(genesis, deal, claim)?;
    settle(alloc, keeper, number, deal, found, outcome)?;
    Ok(ClaimReply::Settled { outcome })
}

/// Settles a deal that is registered and hasn't ended, if the claim certifies records that decide
/// it. The settlement is the entry of that number. A deal that has ended stays as it is, and is
/// answered by how it ended.
pub fn claim<K: Keeper>(
    alloc: Global,
    keeper: &mut K,
    genesis: &Set,
    number: u64,
    deal: &Id,
    claim: &Claim,
) -> Result<ClaimReply, ShowFault>
    requires first { genesis.now.epoch ≡ 0 }
    requires small { IsSmall claim.now }
    ensures rows { ClaimsByRows genesis.now number deal.now claim.now result
        (K.known keeper.old) (K.known keeper.new) }
    ensures step { ClaimsByStep genesis.now number deal.now claim.now result
        (K.known keeper.old) (K.known keeper.new) }
    ensures accepts { AcceptsClaim genesis.now deal.now claim.now result
        (K.known keeper.old) (K.known keeper.new) }
    ensures fails { FailsNext (K.known keeper.old)
        → IsErrOf result (ShowFault.Store StoreFault.Keeper) }
{
    claim_by_rows(alloc, keeper, genesis, number, deal, claim)
}
