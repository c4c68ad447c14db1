//! Reading what links and claims hold: records, and signatures of seats.

ghost use Rattle.std.specs.Prelude.{◌≡◌, ◌<◌, ◌≤◌, ◌^◌, length};
ghost use Rattle.std.specs.Int.{w16};
ghost use Rattle.dh_base.specs.Formats.{next_values};
ghost use Rattle.claim_core.specs.ClaimReading.{Gives, count_from, envelope_fault, envelope_at, sig_from, sigs_from, record_from, records_from};

use crate::read_claim_fault::ReadClaimFault;
use cert_core::SeatSig;
use dh_base::{List, next_u16, next_u32};
use key_ring::{EnvFault, Envelope, EnvelopeAt, envelope_at};
use std::alloc::Global;
use vote_log::{LogRecord, RECORD_LEN, record_at};

/// The most signatures of one list.
const MOST_SIGS: u16 = 16;

/// The most records of a claim.
const MOST_RECORDS: u32 = 4096;

/// The number of values that follow, at most so many, and the place behind it.
pub(crate) fn take_count(bytes: &[u8], at: u32, most: u16) -> Result<(u16, u32), ReadClaimFault>
    requires { length bytes.now < 2 ^ 32 }
    ensures { result ≡ count_from w16 most bytes.now at }
{
    let (count, next) = next_u16(bytes, at)?;
    if most < count {
        return Err(ReadClaimFault::BadForm { at });
    }
    Ok((count, next))
}

/// What is wrong with the bytes of an envelope that begin at a place.
fn envelope_fault(place: u32, fault: EnvFault) -> ReadClaimFault
    ensures { result ≡ envelope_fault place fault }
{
    match fault {
        EnvFault::BadForm { at } => ReadClaimFault::BadForm { at },
        EnvFault::NoMemory => ReadClaimFault::NoMemory,
        EnvFault::BadRing { .. } | EnvFault::KeyOutside { .. } | EnvFault::BadSignature => {
            ReadClaimFault::BadForm { at: place }
        }
    }
}

/// The envelope at a place, by its own fields, and the place behind it.
fn take_envelope(alloc: Global, bytes: &[u8], at: u32) -> Result<(Envelope, u32), ReadClaimFault>
    requires { length bytes.now < 2 ^ 32 }
    ensures { Gives result (envelope_at bytes.now at) }
{
    match envelope_at(alloc, bytes, at) {
        Ok(EnvelopeAt { env, next }) => Ok((env, next)),
        Err(fault) => Err(envelope_fault(at, fault)),
    }
}

/// The signature at a place, and the place behind it.
#[tactic(auto, unfolding(crate::specs::ClaimReading::sig_from))]
fn take_sig(alloc: Global, bytes: &[u8], at: u32) -> Result<(SeatSig, u32), ReadClaimFault>
    requires { length bytes.now < 2 ^ 32 }
    ensures { Gives result (sig_from bytes.now at) }
{
    let (seat, place) = next_u16(bytes, at)?;
    let (len, start) = next_u32(bytes, place)?;
    let (env, next) = take_envelope(alloc, bytes, start)?;
    if start as usize + len as usize != next as usize {
        return Err(ReadClaimFault::BadForm { at: place });
    }
    Ok((SeatSig { seat, env }, next))
}

/// So many signatures, and the place behind them.
fn take_more_sigs(
    alloc: Global,
    count: u16,
    bytes: &[u8],
    at: u32,
) -> Result<(List<SeatSig>, u32), ReadClaimFault>
    requires { length bytes.now < 2 ^ 32 }
    ensures { Gives result (next_values sig_from count bytes.now at) }
{
    let mut sigs = Vec::new(alloc);
    let mut next = at;
    for number in 0..count {
        let (sig, behind) = take_sig(alloc, bytes, next)?;
        sigs.push(sig)?;
        next = behind;
    }
    Ok((List::from_vec(sigs), next))
}

/// The signatures at a place, behind their number, and the place behind them.
pub(crate) fn take_sigs(
    alloc: Global,
    bytes: &[u8],
    at: u32,
) -> Result<(List<SeatSig>, u32), ReadClaimFault>
    requires { length bytes.now < 2 ^ 32 }
    ensures { Gives result (sigs_from bytes.now at) }
{
    let (count, next) = take_count(bytes, at, MOST_SIGS)?;
    take_more_sigs(alloc, count, bytes, next)
}

/// The record at a place, and the place behind it.
fn take_record(bytes: &[u8], at: u32) -> Result<(LogRecord, u32), ReadClaimFault>
    requires { length bytes.now < 2 ^ 32 }
    ensures { result ≡ record_from bytes.now at }
{
    let rec = record_at(bytes, at)?;
    Ok((rec, at + RECORD_LEN as u32))
}

/// So many records, and the place behind them.
fn take_more_records(
    alloc: Global,
    count: u32,
    bytes: &[u8],
    at: u32,
) -> Result<(List<LogRecord>, u32), ReadClaimFault>
    requires { length bytes.now < 2 ^ 32 }
    ensures { Gives result (next_values record_from count bytes.now at) }
{
    let mut recs = Vec::new(alloc);
    let mut next = at;
    for number in 0..count {
        let (rec, behind) = take_record(bytes, next)?;
        recs.push(rec)?;
        next = behind;
    }
    Ok((List::from_vec(recs), next))
}

/// The records at a place, behind their number, and the place behind them.
pub(crate) fn take_records(
    alloc: Global,
    bytes: &[u8],
    at: u32,
) -> Result<(List<LogRecord>, u32), ReadClaimFault>
    requires { length bytes.now < 2 ^ 32 }
    ensures { Gives result (records_from bytes.now at) }
{
    let (count, next) = next_u32(bytes, at)?;
    if MOST_RECORDS < count {
        return Err(ReadClaimFault::BadForm { at });
    }
    take_more_records(alloc, count, bytes, next)
}
