//! What a joined deal lacks by the statements that are kept.

ghost use Rattle.std.specs.Prelude.{◌≡◌, ◌≤◌, ◌<◌, ◌==◌, not, nat_lt, if◌then◌else◌, IfOk, Option};
ghost use Rattle.joined_deals.specs.Heard.{kept_of};
ghost use Rattle.joined_deals.specs.Validated.{due_in};
ghost use Rattle.joined_deals.specs.AgentCalls.{open_refusal, pair_refusal, owed_refusal, first_refusal, unseen};

use crate::agent_fault::AgentFault;
use crate::heard::{kept_of, listed_of};
use crate::joined_deal::JoinedDeal;
use act_text::Statement;
use clear_core::{Pair, due, pairs, turns};
use dh_base::NoMemory;
use std::alloc::Global;

/// What the deal owes the party of the pair.
fn due_of(joined: &JoinedDeal, pair: &Pair) -> u64
    ensures { result ≡ due_in joined.now pair.now.ledger pair.now.asset }
{
    due(joined.deal(), joined.index(), &pair.ledger, &pair.asset)
}

/// What the pair lacks by an open statement.
fn open_refusal(joined: &JoinedDeal, pair: &Pair, statement: &Statement) -> Option<AgentFault>
    ensures { result ≡ open_refusal joined.now pair.now statement.now }
{
    let own = turns(joined.deal(), joined.index(), &pair.ledger);
    if statement.moves != own {
        return Some(AgentFault::MovesOpen {
            ledger: pair.ledger,
            seen: statement.moves,
            own,
        });
    }
    let due = due_of(joined, pair);
    let seen = listed_of(statement.rows.as_slice(), &pair.asset);
    if seen < due {
        return Some(AgentFault::NotValidated {
            ledger: pair.ledger,
            asset: pair.asset,
            seen,
            due,
        });
    }
    None
}

/// What the pair lacks by the statement that is kept of its ledger.
fn pair_refusal(heard: &[Statement], joined: &JoinedDeal, pair: &Pair) -> Option<AgentFault>
    ensures { result ≡ pair_refusal joined.now pair.now
        (kept_of heard.now joined.now.deal.id pair.now.ledger) }
{
    let Some(statement) = kept_of(heard, &joined.id(), &pair.ledger) else {
        return Some(AgentFault::NotValidated {
            ledger: pair.ledger,
            asset: pair.asset,
            seen: 0,
            due: due_of(joined, pair),
        });
    };
    match statement.settled {
        Some(outcome) => Some(AgentFault::Settled {
            ledger: pair.ledger,
            outcome,
        }),
        None => open_refusal(joined, pair, statement),
    }
}

/// What the pair lacks, where something of it is due.
fn owed_refusal(heard: &[Statement], joined: &JoinedDeal, pair: &Pair) -> Option<AgentFault>
    ensures { result ≡ owed_refusal heard.now joined.now pair.now }
{
    if due_of(joined, pair) == 0 {
        return None;
    }
    pair_refusal(heard, joined, pair)
}

/// The first refusal of the pairs, in their order.
fn first_refusal(heard: &[Statement], joined: &JoinedDeal, pairs: &[Pair]) -> Option<AgentFault>
    ensures { result ≡ first_refusal (owed_refusal heard.now joined.now) pairs.now }
{
    for pair in pairs {
        if let Some(fault) = owed_refusal(heard, joined, pair) {
            return Some(fault);
        }
    }
    None
}

/// What a deal lacks by the statements that are kept: the first refusal of the pairs of which
/// something is due, in ascending order.
pub fn unseen(
    alloc: Global,
    heard: &[Statement],
    joined: &JoinedDeal,
) -> Result<Option<AgentFault>, NoMemory>
    ensures { IfOk result (λ refusal. refusal ≡ unseen heard.now joined.now) }
{
    let pairs = pairs(alloc, joined.deal().steps())?;
    Ok(first_refusal(heard, joined, &pairs))
}
