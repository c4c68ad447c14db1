//! Hearing what ledgers tell.

ghost use Rattle.std.specs.Prelude.{◌≡◌, IfOk};
ghost use Rattle.agent_core.specs.AgentSeen.{agent_in};
ghost use Rattle.agent_core.specs.AgentDoes.{HearsOrNot};

use crate::heard::Heard;
use crate::state::AgentState;
use act_text::Statement;
use dh_base::{List, NoMemory};
use joined_deals::AgentFault;
use joined_deals::heard::keep;
use std::alloc::Global;

/// The statement in memory of its own.
fn copied(alloc: Global, statement: &Statement) -> Result<Statement, NoMemory>
    ensures { IfOk result (λ copy. copy ≡ statement.now) }
{
    let rows = Vec::from_slice(alloc, statement.rows.as_slice())?;
    Ok(Statement {
        house: statement.house,
        ledger: statement.ledger,
        deal: statement.deal,
        party: statement.party,
        at: statement.at,
        moves: statement.moves,
        rows: List::from_vec(rows),
        settled: statement.settled,
    })
}

/// Keeps a statement in place of the one of its deal and ledger that is kept, unless that is newer.
pub(crate) fn hear_statement(
    alloc: Global,
    state: &mut AgentState,
    statement: &Statement,
) -> Result<Heard, AgentFault>
    ensures hears { HearsOrNot statement.now (agent_in state.old) (agent_in state.new) result }
    ensures signer { state.new.signer ≡ state.old.signer }
{
    if let Some(fault) = state.hear_refusal(statement) {
        return Err(fault);
    }
    if let Some(kept) = state.newer_kept(statement) {
        return Ok(Heard::Older { kept });
    }
    let copy = copied(alloc, statement)?;
    keep(&mut state.heard, copy)?;
    Ok(Heard::Kept)
}
