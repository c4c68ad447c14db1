//! Registrations, by the deal's text and by the rows that they read.

ghost use Rattle.std.specs.Prelude.{◌≡◌, IfOk, MatchResult, Some, None};
ghost use Rattle.dh_base.specs.Ids.{same_id};
ghost use Rattle.ledger_rows.specs.ActChanges.{act_changes};
ghost use Rattle.ledger_rows.specs.RowKeys.{deal_tab};
ghost use Rattle.ledger_acts.specs.ByRows.{IsRefusedBy, ActsByRows};
ghost use Rattle.ledger_acts.specs.Registering.{Examines, told_open, room_fault, registering_changes, registering, RegistersByRows, RegistersByStep};

use crate::ledger_fault::LedgerFault;
use crate::place::{MOST_ACTS, Place};
use crate::signed::{Signed, put_act};
use deal_core::{Deal, party_of, read_deal};
use dh_base::{Id, List, NoMemory};
use keeper_core::{Batch, Keeper};
use ledger_rows::{Registration, count_open_unless, put_registration};
use std::alloc::Global;

/// The most deals of an account on a ledger that it registered and that are not settled.
const MOST_DEALS: usize = 64;

/// Whether the deal is of that house.
fn is_of_house(deal: &Deal, house: &Id) -> bool
    ensures { result ≡ same_id deal.now.house house.now }
{
    deal.house == *house
}

/// The deal of a text that an account may register in that house.
fn deal_in(alloc: Global, house: &Id, account: &Id, text: &[u8]) -> Result<Id, LedgerFault>
    ensures { Examines house.now account.now text.now result }
{
    let deal = read_deal(alloc, text)?;
    if !is_of_house(&deal, house) {
        return Err(LedgerFault::WrongHouse { named: deal.house });
    }
    if party_of(&deal, account).is_none() {
        return Err(LedgerFault::NotAParty { account: *account });
    }
    Ok(deal.id)
}

/// How many open deals a refusal tells.
fn told_open(held: usize) -> u32
    ensures { result ≡ told_open held }
{
    held.min(u32::MAX as usize) as u32
}

/// The changes of a registration, where the account has so many open deals, or the deal is
/// registered already.
fn batch_for(
    alloc: Global,
    number: u64,
    signed: &Signed<'_>,
    deal: &Id,
    text: &[u8],
    room: Option<usize>,
) -> Result<Batch, NoMemory>
    ensures { IfOk result (λ batch. batch ≡ registering_changes signed.now.account deal.now text.now
        (act_changes number signed.now.account signed.now.q signed.now.message.now) room) }
{
    let mut batch = Batch::new(alloc);
    if room.is_some() {
        let registration = Registration {
            registrant: signed.account,
            settled: None,
            text: List::from_vec(Vec::from_slice(alloc, text)?),
        };
        put_registration(alloc, &mut batch, deal, &registration)?;
    }
    put_act(alloc, &mut batch, number, signed)?;
    Ok(batch)
}

/// Whether there is no room for a registration.
fn check_room(acts: u32, room: Option<usize>) -> Result<(), LedgerFault>
    ensures { MatchResult result (λ done. room_fault acts room ≡ None)
        (λ fault. room_fault acts room ≡ Some fault) }
{
    if let Some(held) = room {
        if MOST_DEALS <= held {
            return Err(LedgerFault::DealsFull {
                held: told_open(held),
            });
        }
    }
    if MOST_ACTS <= acts {
        return Err(LedgerFault::LedgerFull { acts: MOST_ACTS });
    }
    Ok(())
}

/// The changes of a registration, if there is room for it.
fn changes_for(
    alloc: Global,
    place: &Place,
    signed: &Signed<'_>,
    deal: &Id,
    text: &[u8],
    room: Option<usize>,
) -> Result<Batch, LedgerFault>
    ensures { let act = act_changes place.now.number signed.now.account signed.now.q
        signed.now.message.now in
        MatchResult result
        (λ batch. (room_fault place.now.acts room ≡ None)
        × (batch ≡ registering_changes signed.now.account deal.now text.now act room))
        (IsRefusedBy (room_fault place.now.acts room)) }
{
    check_room(place.acts, room)?;
    Ok(batch_for(alloc, place.number, signed, deal, text, room)?)
}

/// Registers a deal by the rows, on a ledger whose next entry stands at that place.
fn put_deal<K: Keeper>(
    alloc: Global,
    keeper: &mut K,
    place: &Place,
    signed: &Signed<'_>,
    deal: &Id,
    text: &[u8],
) -> Result<(), LedgerFault>
    ensures { ActsByRows 2 (Some deal_tab)
        (registering signed.now.account deal.now text.now place.now.acts
        (act_changes place.now.number signed.now.account signed.now.q signed.now.message.now))
        result (K.known keeper.old) (K.known keeper.new) }
{
    let room = count_open_unless(alloc, keeper, &signed.account, deal)?;
    let batch = changes_for(alloc, place, signed, deal, text, room)?;
    Ok(keeper.commit(&batch)?)
}

/// Registers the deal of a text, by the text and the rows.
fn register_by_rows<K: Keeper>(
    alloc: Global,
    keeper: &mut K,
    place: &Place,
    signed: &Signed<'_>,
    house: &Id,
    text: &[u8],
) -> Result<(), LedgerFault>
    ensures { RegistersByRows house.now signed.now.account text.now place.now.acts
        (act_changes place.now.number signed.now.account signed.now.q signed.now.message.now)
        result (K.known keeper.old) (K.known keeper.new) }
{
    let deal = deal_in(alloc, house, &signed.account, text)?;
    put_deal(alloc, keeper, place, signed, &deal, text)
}

/// Registers the deal of a text on a ledger of that house, whose next entry stands at that place.
pub fn register<K: Keeper>(
    alloc: Global,
    keeper: &mut K,
    place: &Place,
    signed: &Signed<'_>,
    house: &Id,
    text: &[u8],
) -> Result<(), LedgerFault>
    ensures rows { RegistersByRows house.now signed.now.account text.now place.now.acts
        (act_changes place.now.number signed.now.account signed.now.q signed.now.message.now)
        result (K.known keeper.old) (K.known keeper.new) }
    ensures step { RegistersByStep house.now text.now place.now.acts place.now.number
        signed.now.account signed.now.q signed.now.message.now
        result (K.known keeper.old) (K.known keeper.new) }
{
    register_by_rows(alloc, keeper, place, signed, house, text)
}
