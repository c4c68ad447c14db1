//! Acts under their keys: each acts once, and is answered by what is kept from then on.

ghost use Rattle.std.specs.Prelude.{◌≡◌, Some};
ghost use Rattle.std.specs.Result.{IsErr, result_err};
ghost use Rattle.keeper_core.specs.Knowing.{FailsNext};
ghost use Rattle.ledger_rows.specs.Entries.{digest_of};
ghost use Rattle.ledger_acts.specs.LedgerStep.{wrong_ledger, kept_reply};
ghost use Rattle.ledger_acts.specs.Movements.{movement_of, head_refusal, MovesByRows, MovesOnceByRows};
ghost use Rattle.ledger_acts.specs.Registering.{RegistersOnceByRows};
ghost use Rattle.ledger_acts.specs.Steps.{ActsByStep};

use crate::ledger_fault::LedgerFault;
use crate::ledger_id::LedgerId;
use crate::movement::Movement;
use crate::moving::make_movement;
use crate::place::Place;
use crate::registering::register;
use crate::signed::Signed;
use act_text::Act;
use dh_base::{Id, Name, digest};
use keeper_core::Keeper;
use ledger_rows::{UsedKey, read_used};
use std::alloc::Global;

/// What is replied to a message under a key that has signed an accepted act.
pub(crate) fn kept_reply(used: &UsedKey, message: &[u8]) -> Result<u64, LedgerFault>
    ensures { result ≡ kept_reply used.now (digest_of message.now) }
{
    if digest(message) == used.message {
        Ok(used.at)
    } else {
        Err(LedgerFault::KeyReused { kept: used.message })
    }
}

/// What an act of an account moves.
pub fn movement_of(account: &Id, act: &Act) -> Option<Movement>
    ensures { result ≡ movement_of account.now act.now }
{
    match act {
        Act::Pay {
            to,
            asset,
            amount,
            ..
        } => Some(Movement::Payment {
            from: *account,
            to: *to,
            asset: *asset,
            amount: *amount,
        }),
        Act::Escrow {
            deal,
            asset,
            amount,
            ..
        } => Some(Movement::Escrow {
            deal: *deal,
            party: *account,
            asset: *asset,
            amount: *amount,
        }),
        Act::Transfer {
            deal,
            turn,
            to,
            asset,
            amount,
            ..
        } => Some(Movement::Transfer {
            deal: *deal,
            from: *account,
            turn: *turn,
            to: *to,
            asset: *asset,
            amount: *amount,
        }),
        _ => None,
    }
}

fn check_name(ledger: &LedgerId, named: &Name) -> Result<(), LedgerFault>
    ensures { result_err result ≡ wrong_ledger ledger.now.name named.now }
{
    if *named == ledger.name {
        return Ok(());
    }
    Err(LedgerFault::WrongLedger { named: *named })
}

/// Refuses an act that names another ledger, or another house.
fn check_head(ledger: &LedgerId, act: &Act) -> Result<(), LedgerFault>
    ensures { result_err result ≡ head_refusal ledger.now act.now }
{
    match act {
        Act::Pay {
            house,
            ledger: named,
            ..
        } => {
            check_name(ledger, named)?;
            if *house == ledger.house {
                return Ok(());
            }
            Err(LedgerFault::WrongHouse { named: *house })
        }
        Act::Escrow { ledger: named, .. } => check_name(ledger, named),
        Act::Transfer { ledger: named, .. } => check_name(ledger, named),
        _ => Ok(()),
    }
}

/// Makes the movement that an act asks for, if the act names the ledger.
fn take_movement<K: Keeper>(
    alloc: Global,
    keeper: &mut K,
    ledger: &LedgerId,
    place: &Place,
    signed: &Signed<'_>,
    act: &Act,
    movement: &Movement,
) -> Result<(), LedgerFault>
    ensures { MovesByRows ledger.now place.now signed.now.account signed.now.q
        signed.now.message.now act.now movement.now result
        (K.known keeper.old) (K.known keeper.new) }
{
    check_head(ledger, act)?;
    make_movement(alloc, keeper, place, signed, movement)
}

/// Makes a movement under its key, by the rows.
fn move_once_by_rows<K: Keeper>(
    alloc: Global,
    keeper: &mut K,
    ledger: &LedgerId,
    place: &Place,
    signed: &Signed<'_>,
    act: &Act,
    movement: &Movement,
) -> Result<u64, LedgerFault>
    ensures rows { MovesOnceByRows ledger.now place.now signed.now.account signed.now.q
        signed.now.message.now act.now movement.now result
        (K.known keeper.old) (K.known keeper.new) }
    ensures fails { FailsNext (K.known keeper.old) → IsErr result }
{
    match read_used(alloc, keeper, &signed.account, signed.q)? {
        Some(used) => kept_reply(&used, signed.message),
        None => {
            take_movement(alloc, keeper, ledger, place, signed, act, movement)?;
            Ok(place.number)
        }
    }
}

/// Makes a movement once, on a ledger whose next entry stands at that place: a key that has signed
/// an accepted act is answered by what is kept.
pub fn move_once<K: Keeper>(
    alloc: Global,
    keeper: &mut K,
    ledger: &LedgerId,
    place: &Place,
    signed: &Signed<'_>,
    act: &Act,
    movement: &Movement,
) -> Result<u64, LedgerFault>
    ensures rows { MovesOnceByRows ledger.now place.now signed.now.account signed.now.q
        signed.now.message.now act.now movement.now result
        (K.known keeper.old) (K.known keeper.new) }
    ensures step { movement_of signed.now.account act.now ≡ Some movement.now →
        ActsByStep ledger.now place.now signed.now.account signed.now.q signed.now.message.now
        act.now result (K.known keeper.old) (K.known keeper.new) }
    ensures fails { FailsNext (K.known keeper.old) → IsErr result }
{
    move_once_by_rows(alloc, keeper, ledger, place, signed, act, movement)
}

/// Registers a deal under a key, by the text and the rows.
fn register_once_by_rows<K: Keeper>(
    alloc: Global,
    keeper: &mut K,
    ledger: &LedgerId,
    place: &Place,
    signed: &Signed<'_>,
    text: &[u8],
) -> Result<u64, LedgerFault>
    ensures rows { RegistersOnceByRows ledger.now place.now signed.now.account signed.now.q
        signed.now.message.now text.now result (K.known keeper.old) (K.known keeper.new) }
    ensures fails { FailsNext (K.known keeper.old) → IsErr result }
{
    match read_used(alloc, keeper, &signed.account, signed.q)? {
        Some(used) => kept_reply(&used, signed.message),
        None => {
            register(alloc, keeper, place, signed, &ledger.house, text)?;
            Ok(place.number)
        }
    }
}

/// Registers the deal of a text once, as `move_once` makes a movement.
pub fn register_once<K: Keeper>(
    alloc: Global,
    keeper: &mut K,
    ledger: &LedgerId,
    place: &Place,
    signed: &Signed<'_>,
    text: &[u8],
) -> Result<u64, LedgerFault>
    ensures rows { RegistersOnceByRows ledger.now place.now signed.now.account signed.now.q
        signed.now.message.now text.now result (K.known keeper.old) (K.known keeper.new) }
    ensures step { ActsByStep ledger.now place.now signed.now.account signed.now.q
        signed.now.message.now (Act.Register text.now) result
        (K.known keeper.old) (K.known keeper.new) }
    ensures fails { FailsNext (K.known keeper.old) → IsErr result }
{
    register_once_by_rows(alloc, keeper, ledger, place, signed, text)
}
