//! Acts as a whole, by their envelopes.

ghost use Rattle.std.specs.Prelude.{◌≡◌, ◌<◌, ◌^◌, length, None, IsSome, Ok};
ghost use Rattle.std.specs.Result.{IsErr};
ghost use Rattle.act_text.specs.ActTexts.{office_of, kind_of};
ghost use Rattle.act_text.specs.declared.office.Office.TheVariants.{Ledger};
ghost use Rattle.keeper_core.specs.Knowing.{FailsNext};
ghost use Rattle.key_ring.specs.Saying.{Says};
ghost use Rattle.ledger_acts.specs.Movements.{movement_of};
ghost use Rattle.ledger_acts.specs.Steps.{through, LeavesByRows, ActsByStep, SubmitsByRows, SubmitsByStep};

use crate::ledger_fault::LedgerFault;
use crate::ledger_id::LedgerId;
use crate::once::{move_once, movement_of, register_once};
use crate::place::Place;
use crate::signed::Signed;
use act_text::{Act, Office, read_act};
use keeper_core::Keeper;
use key_ring::{Envelope, Said, check};
use std::alloc::Global;

/// Makes the movement of an act under its key.
fn submit_movement<K: Keeper>(
    alloc: Global,
    keeper: &mut K,
    ledger: &LedgerId,
    place: &Place,
    signed: &Signed<'_>,
    act: &Act,
) -> Result<u64, LedgerFault>
    requires { IsSome (movement_of signed.now.account act.now) }
    ensures rows { LeavesByRows None result (K.known keeper.old) (K.known keeper.new) }
    ensures step { ActsByStep ledger.now place.now signed.now.account signed.now.q
        signed.now.message.now act.now result (K.known keeper.old) (K.known keeper.new) }
    ensures fails { FailsNext (K.known keeper.old) → IsErr result }
{
    match movement_of(&signed.account, act) {
        Some(movement) => move_once(alloc, keeper, ledger, place, signed, act, &movement),
        None => unreachable!(),
    }
}

/// Makes an act under its key.
fn submit_act<K: Keeper>(
    alloc: Global,
    keeper: &mut K,
    ledger: &LedgerId,
    place: &Place,
    signed: &Signed<'_>,
    act: &Act,
) -> Result<u64, LedgerFault>
    requires { office_of (kind_of act.now) ≡ Ledger }
    ensures rows { LeavesByRows (through (Ok act.now)) result
        (K.known keeper.old) (K.known keeper.new) }
    ensures step { ActsByStep ledger.now place.now signed.now.account signed.now.q
        signed.now.message.now act.now result (K.known keeper.old) (K.known keeper.new) }
    ensures fails { FailsNext (K.known keeper.old) → IsErr result }
{
    match act {
        Act::Register { text } => {
            register_once(alloc, keeper, ledger, place, signed, text.as_slice())
        }
        _ => submit_movement(alloc, keeper, ledger, place, signed, act),
    }
}

/// Makes the act that an envelope says.
fn submit_said<K: Keeper>(
    alloc: Global,
    keeper: &mut K,
    ledger: &LedgerId,
    place: &Place,
    env: &Envelope,
    said: &Said,
) -> Result<u64, LedgerFault>
    requires few { length env.now.message < 2 ^ 32 }
    requires says { Says env.now said.now.account.0 said.now.q env.now.message }
    ensures rows { SubmitsByRows env.now result (K.known keeper.old) (K.known keeper.new) }
    ensures step { SubmitsByStep ledger.now place.now env.now result
        (K.known keeper.old) (K.known keeper.new) }
    ensures fails { FailsNext (K.known keeper.old) → IsErr result }
{
    let signed = Signed {
        account: said.account,
        q: said.q,
        message: env.message.as_slice(),
    };
    let act = read_act(alloc, Office::Ledger, env.message.as_slice())?;
    submit_act(alloc, keeper, ledger, place, &signed, &act)
}

/// Makes the act of an envelope, on a ledger whose next entry stands at that place. The answer is
/// the number of its entry, which for a repeated act is the one that it has.
pub fn submit<K: Keeper>(
    alloc: Global,
    keeper: &mut K,
    ledger: &LedgerId,
    place: &Place,
    env: &Envelope,
) -> Result<u64, LedgerFault>
    requires { length env.now.message < 2 ^ 32 }
    ensures rows { SubmitsByRows env.now result (K.known keeper.old) (K.known keeper.new) }
    ensures step { SubmitsByStep ledger.now place.now env.now result
        (K.known keeper.old) (K.known keeper.new) }
    ensures fails { FailsNext (K.known keeper.old) → IsErr result }
{
    match check(env) {
        Ok(said) => submit_said(alloc, keeper, ledger, place, env, &said),
        Err(fault) => Err(LedgerFault::BadEnvelope { fault }),
    }
}
