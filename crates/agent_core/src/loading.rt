//! Opening an agent over the tables of its keeper.

ghost use Rattle.std.specs.Prelude.{◌≡◌, ◌≤◌, ◌+◌, [], ◌∷◌, IfOk, IfErr, IfSome, IfNone, length, map, take};
ghost use Rattle.std.specs.Int.{w64, to_be_bytes};
ghost use Rattle.std.specs.List.{AllByRecursion};
ghost use Rattle.std.specs.Result.{IsErr};
ghost use Rattle.keeper_core.specs.Knowing.{FailsNext};
ghost use Rattle.keeper_core.specs.Leaving.{Leaves, ended};
ghost use Rattle.joined_deals.specs.Signed.{unsigned_in};
ghost use Rattle.agent_core.specs.AgentOpenFaults.{of_open_fault};
ghost use Rattle.agent_core.specs.AgentSeen.{KeepsUp};
ghost use Rattle.agent_core.specs.AgentTables.{form_changes, IsOwn};
ghost use Rattle.agent_core.specs.AgentRows.{said_by, named_if, row_of, IsFormFault, IsKeptDeal, IsNoKeptDeal, IsRowOf, IsNoRow, IsFitting, IsUnfit, IsDealFault, IsStoreOpenFault};
ghost use Rattle.agent_core.specs.AgentOpens.{account_for, IsLoaded, OpenCause, Opens, agent_if};

use crate::agent_open_fault::AgentOpenFault;
use crate::rows::{
    AgentRows, DEAL_TAB, FORM_KEY, FORM_TAB, form_batch, form_in, identity, read_rows,
};
use crate::state::AgentState;
use deal_core::{Deal, DealFault, party_of, read_deal};
use dh_base::{Id, List, NoMemory};
use joined_deals::JoinedDeal;
use keeper_core::{Keeper, Row, StoreFault};
use key_ring::{KeySpec, Signer, account_of, make_ring};
use std::alloc::Global;

/// Whether the tables name the agent. They may name none.
fn is_named(form: &Option<List<u8>>, identity: &Id) -> Result<bool, AgentOpenFault>
    ensures named { IfOk result (λ named. said_by form.now ≡ named_if identity.now named) }
    ensures fault { IfErr result (IsFormFault identity.now form.now) }
{
    let Some(row) = form else { return Ok(false) };
    match form_in(row.as_slice()) {
        None => Err(AgentOpenFault::from(StoreFault::bad_row(FORM_TAB, FORM_KEY))),
        Some(kept) => {
            if kept == *identity {
                Ok(true)
            } else {
                Err(AgentOpenFault::OtherAgent { kept })
            }
        }
    }
}

/// What is kept of a joined deal.
#[derive(Drop)]
struct KeptDeal {
    deadline: u64,
    deal: Deal,
}

/// The deadline in front.
fn deadline_in(val: &[u8]) -> u64
    requires { 8 ≤ length val.now }
    ensures { to_be_bytes w64 result ≡ take 8 val.now }
{
    u64::from_be_bytes([
        val[0], val[1], val[2], val[3], val[4], val[5], val[6], val[7],
    ])
}

/// The deadline, and the deal of the text behind it.
fn kept_deal(alloc: Global, val: &[u8]) -> Result<Option<KeptDeal>, NoMemory>
    ensures some { IfOk result (λ found. IfSome found (IsKeptDeal val.now)) }
    ensures none { IfOk result (λ found. IfNone found (IsNoKeptDeal val.now)) }
{
    if val.len() < 8 {
        return Ok(None);
    }
    let deadline = deadline_in(val);
    match read_deal(alloc, &val[8..]) {
        Ok(deal) => Ok(Some(KeptDeal { deadline, deal })),
        Err(fault) => match fault {
            DealFault::NoMemory => Err(NoMemory),
            _ => Ok(None),
        },
    }
}

/// The deal of a row, if it is one of the house in which the account is a party.
fn joined_of(
    alloc: Global,
    house: &Id,
    account: &Id,
    row: &Row,
) -> Result<Option<JoinedDeal>, NoMemory>
    ensures some { IfOk result (λ found. IfSome found (IsRowOf house.now account.now row.now)) }
    ensures none { IfOk result (λ found. IfNone found (IsNoRow house.now account.now row.now)) }
{
    let Some(kept) = kept_deal(alloc, row.val.as_slice())? else {
        return Ok(None);
    };
    let KeptDeal { deadline, deal } = kept;
    if row.key.as_slice() != deal.id.0.as_slice() {
        return Ok(None);
    }
    if deal.house != *house {
        return Ok(None);
    }
    let Some(index) = party_of(&deal, account) else {
        return Ok(None);
    };
    let joined = JoinedDeal::new(alloc, deal, index, deadline)?;
    Ok(Some(joined))
}

/// The deal of a row, if it is one of the agent's own for which so many keys suffice.
fn fitting(
    alloc: Global,
    house: &Id,
    account: &Id,
    signer: &Signer,
    left: u16,
    row: &Row,
) -> Result<Option<JoinedDeal>, NoMemory>
    ensures some { IfOk result (λ found. IfSome found
        (IsFitting house.now account.now signer.now.texts left row.now)) }
    ensures none { IfOk result (λ found. IfNone found
        (IsUnfit house.now account.now signer.now.texts left row.now)) }
{
    let Some(joined) = joined_of(alloc, house, account, row)? else {
        return Ok(None);
    };
    let unsigned = joined.unsigned(signer);
    if left < unsigned {
        return Ok(None);
    }
    Ok(Some(joined))
}

/// The deals of the rows, which are the agent's own, and for which its keys suffice; or the first
/// row of which that does not hold.
fn read_deals(
    alloc: Global,
    house: &Id,
    account: &Id,
    signer: &Signer,
    rows: List<Row>,
) -> Result<Vec<JoinedDeal>, StoreFault>
    ensures rows { IfOk result (λ deals. rows ≡ map row_of deals.items) }
    ensures own { IfOk result (λ deals. AllByRecursion (IsOwn house.now account.now) deals.items) }
    ensures keys { IfOk result (λ deals. length signer.now.texts
        + unsigned_in signer.now.texts deals.items ≤ signer.now.spec.size) }
    ensures fault { IfErr result
        (IsDealFault house.now account.now signer.now.spec.size signer.now.texts rows) }
{
    let mut deals = Vec::new(alloc);
    let mut left = signer.size() - signer.used();
    for row in rows.into_vec() {
        let found = fitting(alloc, house, account, signer, left, &row)?;
        let Some(joined) = found else {
            return Err(StoreFault::bad_row(DEAL_TAB, row.key.as_slice()));
        };
        left -= joined.unsigned(signer);
        deals.push(joined)?;
    }
    Ok(deals)
}

/// The account of the ring of a seed.
fn account_in(alloc: Global, spec: &KeySpec) -> Result<Id, NoMemory>
    ensures { IfOk result (λ account. account ≡ account_for spec.now) }
{
    let ring = make_ring(alloc, spec)?;
    Ok(account_of(ring.as_slice()))
}

/// What the tables of an agent have.
#[derive(Drop)]
struct Loaded {
    state: AgentState,
    named: bool,
}

/// Reads the tables of an agent.
fn load<K: Keeper>(
    alloc: Global,
    keeper: &mut K,
    spec: &KeySpec,
    house: &Id,
) -> Result<Loaded, AgentOpenFault>
    ensures loaded { IfOk result (IsLoaded spec.now house.now (K.known keeper.new)) }
    ensures leaves { Leaves [] (ended of_open_fault result)
        (K.known keeper.old) (K.known keeper.new) }
    ensures cause { IfErr result (OpenCause spec.now house.now (K.known keeper.new).tables) }
    ensures fails { FailsNext (K.known keeper.old) → IsErr result }
{
    let rows = read_rows(keeper)?;
    let account = account_in(alloc, spec)?;
    let named = is_named(&rows.form, &identity(house, &account))?;
    let signer = Signer::load(alloc, spec, keeper)?;
    let AgentRows { deals, .. } = rows;
    let deals = read_deals(alloc, house, &account, &signer, deals)?;
    let state = AgentState {
        signer,
        account,
        house: *house,
        deals,
        heard: Vec::new(alloc),
    };
    Ok(Loaded { state, named })
}

/// Names the agent in tables that name none.
fn name_agent<K: Keeper>(
    alloc: Global,
    keeper: &mut K,
    house: &Id,
    account: &Id,
) -> Result<(), AgentOpenFault>
    ensures leaves { Leaves (form_changes house.now account.now ∷ []) (ended of_open_fault result)
        (K.known keeper.old) (K.known keeper.new) }
    ensures store { IfErr result IsStoreOpenFault }
{
    let batch = form_batch(alloc, house, account)?;
    keeper.commit(&batch)?;
    Ok(())
}

/// Opens an agent over the tables of its keeper.
pub(crate) fn open_over<K: Keeper>(
    alloc: Global,
    keeper: &mut K,
    spec: &KeySpec,
    house: &Id,
) -> Result<AgentState, AgentOpenFault>
    ensures opens { Opens spec.now house.now (agent_if result)
        (K.known keeper.old) (K.known keeper.new) }
    ensures spec { IfOk result (λ state. state.signer.spec ≡ spec.now) }
    ensures keeps { IfOk result (KeepsUp (K.known keeper.new)) }
    ensures cause { IfErr result (OpenCause spec.now house.now (K.known keeper.new).tables) }
    ensures fails { FailsNext (K.known keeper.old) → IsErr result }
{
    let loaded = load(alloc, keeper, spec, house)?;
    let Loaded { state, named } = loaded;
    if named {
        return Ok(state);
    }
    name_agent(alloc, keeper, house, &state.account)?;
    Ok(state)
}
