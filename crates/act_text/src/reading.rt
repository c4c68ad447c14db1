//! Reading acts from their texts.

ghost use Rattle.std.specs.Prelude.{◌≡◌, ◌<◌, ◌≤◌, ◌^◌, length, IfOk, Ok};
ghost use Rattle.act_text.specs.ActTexts.{ActFits, act_text, kind_of, office_of};
ghost use Rattle.act_text.specs.ActReading.{Gives, amount_from, choice_byte_from, text_from, next_kind, fields_from, act_of};
ghost use Rattle.act_text.specs.declared.act.Act.{Act};
ghost use Rattle.act_text.specs.declared.act_kind.ActKind.TheVariants.{Registration, Payment, Escrowing, Move, Start, Voting};

use crate::act::Act;
use crate::act_fault::ActFault;
use crate::act_kind::ActKind;
use crate::office::Office;
use crate::writing::ACT_TAG;
use dh_base::{
    List, Outcome, next_id, next_name, next_text, next_u8, next_u16, next_u32, next_u64,
};
use std::alloc::Global;

/// The first place that no amount reaches.
const AMOUNT_LIMIT: u64 = 1 << 63;

/// A text behind its length, and the place behind it.
fn take_text(alloc: Global, bytes: &[u8], at: u32) -> Result<(List<u8>, u32), ActFault>
    requires { length bytes.now < 2 ^ 32 }
    ensures text { Gives result (text_from bytes.now at) }
    ensures within { IfOk result (λ read. read.1 ≤ length bytes.now) }
{
    let (text, next) = next_text(bytes, at)?;
    let kept = Vec::from_slice(alloc, text)?;
    Ok((List::from_vec(kept), next))
}

/// An amount, and the place behind it.
fn take_amount(bytes: &[u8], at: u32) -> Result<(u64, u32), ActFault>
    requires { length bytes.now < 2 ^ 32 }
    ensures { result ≡ amount_from bytes.now at }
{
    let (amount, next) = next_u64(bytes, at)?;
    if AMOUNT_LIMIT <= amount {
        return Err(ActFault::BadField { at });
    }
    Ok((amount, next))
}

/// A choice, and the place behind it.
fn take_choice(bytes: &[u8], at: u32) -> Result<(u8, u32), ActFault>
    requires { length bytes.now < 2 ^ 32 }
    ensures { result ≡ choice_byte_from bytes.now at }
{
    let (byte, next) = next_u8(bytes, at)?;
    if byte < 2 || 3 < byte {
        return Err(ActFault::BadField { at });
    }
    Ok((byte, next))
}

#[tactic(auto, unfolding(crate::specs::ActReading::fields_from))]
fn take_payment(bytes: &[u8], at: u32) -> Result<(Act, u32), ActFault>
    requires { length bytes.now < 2 ^ 32 }
    ensures { result ≡ fields_from Payment bytes.now at }
{
    let (house, next) = next_id(bytes, at)?;
    let (ledger, next) = next_name(bytes, next)?;
    let (to, next) = next_id(bytes, next)?;
    let (asset, next) = next_name(bytes, next)?;
    let (amount, next) = take_amount(bytes, next)?;
    let act = Act::Pay {
        house,
        ledger,
        to,
        asset,
        amount,
    };
    Ok((act, next))
}

#[tactic(auto, unfolding(crate::specs::ActReading::fields_from))]
fn take_escrow(bytes: &[u8], at: u32) -> Result<(Act, u32), ActFault>
    requires { length bytes.now < 2 ^ 32 }
    ensures { result ≡ fields_from Escrowing bytes.now at }
{
    let (deal, next) = next_id(bytes, at)?;
    let (ledger, next) = next_name(bytes, next)?;
    let (asset, next) = next_name(bytes, next)?;
    let (amount, next) = take_amount(bytes, next)?;
    let act = Act::Escrow {
        deal,
        ledger,
        asset,
        amount,
    };
    Ok((act, next))
}

#[tactic(auto, unfolding(crate::specs::ActReading::fields_from))]
fn take_transfer(bytes: &[u8], at: u32) -> Result<(Act, u32), ActFault>
    requires { length bytes.now < 2 ^ 32 }
    ensures { result ≡ fields_from Move bytes.now at }
{
    let (deal, next) = next_id(bytes, at)?;
    let (ledger, next) = next_name(bytes, next)?;
    let (turn, next) = next_u32(bytes, next)?;
    let (to, next) = next_id(bytes, next)?;
    let (asset, next) = next_name(bytes, next)?;
    let (amount, next) = take_amount(bytes, next)?;
    let act = Act::Transfer {
        deal,
        ledger,
        turn,
        to,
        asset,
        amount,
    };
    Ok((act, next))
}

#[tactic(auto, unfolding(crate::specs::ActReading::fields_from))]
fn take_vote(bytes: &[u8], at: u32) -> Result<(Act, u32), ActFault>
    requires { length bytes.now < 2 ^ 32 }
    ensures { result ≡ fields_from Voting bytes.now at }
{
    let (deal, next) = next_id(bytes, at)?;
    let (index, next) = next_u16(bytes, next)?;
    let (byte, next) = take_choice(bytes, next)?;
    let choice = if byte == 2 {
        Outcome::Commit
    } else {
        Outcome::Abort
    };
    let act = Act::Vote {
        deal,
        index,
        choice,
    };
    Ok((act, next))
}

/// The fields of an act of that kind, and the place behind them.
#[tactic(auto, unfolding(crate::specs::ActReading::fields_from))]
fn take_fields(alloc: Global, kind: ActKind, bytes: &[u8], at: u32) -> Result<(Act, u32), ActFault>
    requires { length bytes.now < 2 ^ 32 }
    ensures { Gives result (fields_from kind bytes.now at) }
{
    match kind {
        ActKind::Registration => {
            let (text, next) = take_text(alloc, bytes, at)?;
            Ok((Act::Register { text }, next))
        }
        ActKind::Payment => take_payment(bytes, at),
        ActKind::Escrowing => take_escrow(bytes, at),
        ActKind::Move => take_transfer(bytes, at),
        ActKind::Start => {
            let (text, next) = take_text(alloc, bytes, at)?;
            Ok((Act::StartDeal { text }, next))
        }
        ActKind::Voting => take_vote(bytes, at),
    }
}

/// The kind that the tag and the number behind it name, and the place behind them.
#[tactic(auto, unfolding(crate::specs::ActReading::next_kind))]
fn take_kind(office: Office, bytes: &[u8]) -> Result<(ActKind, u32), ActFault>
    ensures { result ≡ next_kind office bytes.now 0 }
{
    if bytes.len() < 9 || bytes[..8] != ACT_TAG[..] {
        return Err(ActFault::BadTag);
    }
    match ActKind::numbered(office, bytes[8]) {
        Some(kind) => Ok((kind, 9)),
        None => Err(ActFault::BadTag),
    }
}

/// The act that all of the bytes are.
#[tactic(auto, unfolding(crate::specs::ActReading::act_from))]
fn take_whole(alloc: Global, office: Office, bytes: &[u8]) -> Result<Act, ActFault>
    requires { length bytes.now < 2 ^ 32 }
    ensures { Gives result (act_of office bytes.now) }
{
    let (kind, at) = take_kind(office, bytes)?;
    let (act, next) = take_fields(alloc, kind, bytes, at)?;
    if (next as usize) < bytes.len() {
        return Err(ActFault::Trailing { at: next });
    }
    Ok(act)
}

/// The act of that office that the bytes spell, all of the bytes.
pub fn read_act(alloc: Global, office: Office, bytes: &[u8]) -> Result<Act, ActFault>
    requires { length bytes.now < 2 ^ 32 }
    // What is read is the office's, and is spelled so.
    ensures found { IfOk result (λ act. (office_of (kind_of act) ≡ office) × ActFits act
        × (bytes.now ≡ act_text act)) }
    // What is spelled so is read, unless memory runs out.
    ensures only { (act : Act) → office_of (kind_of act) ≡ office → ActFits act
        → bytes.now ≡ act_text act →
        Gives result (Ok act) }
    // Which field is the first at fault.
    ensures exact { Gives result (act_of office bytes.now) }
{
    take_whole(alloc, office, bytes)
}
