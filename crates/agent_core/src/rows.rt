//! The rows of an agent: what it is in its house, and the deals that it has joined. The texts that
//! it has signed are kept by its signer.

ghost use Rattle.std.specs.Prelude.{◌≡◌, [], IfOk, IfErr, IfSome};
ghost use Rattle.std.specs.Result.{IsErrOf};
ghost use Rattle.keeper_core.specs.Knowing.{FailsNext};
ghost use Rattle.keeper_core.specs.Leaving.{Leaves, ended, of_store_fault};
ghost use Rattle.agent_core.specs.AgentTables.{identity_of, form_text, kept_text, form_changes, deal_changes};
ghost use Rattle.agent_core.specs.AgentRows.{form_in, rows_in, IsStoreOnly};

use deal_core::write_deal;
use dh_base::{Id, List, NoMemory, put_id, put_u8, put_u64};
use joined_deals::JoinedDeal;
use keeper_core::{Batch, Keeper, Row, StoreFault};
use sha2::{Digest, Sha256};
use std::alloc::Global;

/// The table of what a keeper is.
pub(crate) const FORM_TAB: u8 = 1;

/// The table of joined deals.
pub(crate) const DEAL_TAB: u8 = 12;

pub(crate) const FORM_KEY: &[u8; 1] = b"m";

/// The identity of the agent of an account in a house.
pub(crate) fn identity(house: &Id, account: &Id) -> Id
    ensures { result ≡ identity_of house.now account.now }
{
    let mut hasher = Sha256::new();
    hasher.update(house.0.as_slice());
    hasher.update(account.0.as_slice());
    Id(hasher.finalize())
}

fn form_text(alloc: Global, house: &Id, account: &Id) -> Result<Vec<u8>, NoMemory>
    ensures { IfOk result (λ text. text.items ≡ form_text house.now account.now) }
{
    let mut text = Vec::new(alloc);
    put_u8(&mut text, 1)?;
    put_u8(&mut text, 3)?;
    put_id(&mut text, &identity(house, account))?;
    Ok(text)
}

/// What is committed when an agent is opened for the first time.
pub(crate) fn form_batch(alloc: Global, house: &Id, account: &Id) -> Result<Batch, NoMemory>
    ensures { IfOk result (λ batch. batch ≡ form_changes house.now account.now) }
{
    let text = form_text(alloc, house, account)?;
    let mut batch = Batch::new(alloc);
    batch.put(FORM_TAB, FORM_KEY, &text)?;
    Ok(batch)
}

fn kept_text(alloc: Global, joined: &JoinedDeal) -> Result<Vec<u8>, NoMemory>
    ensures { IfOk result (λ text. text.items ≡ kept_text joined.now) }
{
    let deal_text = write_deal(alloc, joined.deal())?;
    let mut text = Vec::new(alloc);
    put_u64(&mut text, joined.deadline())?;
    text.extend_from_slice(deal_text.as_slice())?;
    Ok(text)
}

/// What is committed when a deal is joined.
pub(crate) fn deal_batch(alloc: Global, joined: &JoinedDeal) -> Result<Batch, NoMemory>
    ensures { IfOk result (λ batch. batch ≡ deal_changes joined.now) }
{
    let text = kept_text(alloc, joined)?;
    let mut batch = Batch::new(alloc);
    batch.put(DEAL_TAB, &joined.id().0, &text)?;
    Ok(batch)
}

/// The identity of the agent that tables name.
pub(crate) fn form_in(bytes: &[u8]) -> Option<Id>
    ensures { result ≡ form_in bytes.now }
{
    if bytes.len() != 34 || bytes[0] != 1 || bytes[1] != 3 {
        return None;
    }
    let mut identity = [0; 32];
    identity.copy_from_slice(&bytes[2..]);
    Some(Id(identity))
}

/// The rows of an agent, beside those of its signer.
#[derive(Drop)]
pub(crate) struct AgentRows {
    pub(crate) form: Option<List<u8>>,
    pub(crate) deals: List<Row>,
}

/// Reads the rows of an agent.
pub(crate) fn read_rows<K: Keeper>(keeper: &mut K) -> Result<AgentRows, StoreFault>
    ensures rows { IfOk result (λ rows. IfSome (K.known keeper.new).tables
        (λ tables. rows ≡ rows_in tables)) }
    ensures leaves { Leaves [] (ended of_store_fault result) (K.known keeper.old)
        (K.known keeper.new) }
    ensures store { IfErr result IsStoreOnly }
    ensures fails { FailsNext (K.known keeper.old) → IsErrOf result StoreFault.Keeper }
{
    let form = keeper.get(FORM_TAB, FORM_KEY)?;
    let deals = keeper.scan(DEAL_TAB)?;
    Ok(AgentRows { form, deals })
}
