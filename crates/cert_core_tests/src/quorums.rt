//! Quorums of a set of four seats, of which one may deviate.

ghost use Rattle.std.specs.Prelude.{◌≡◌, ◌≤◌, length};

use cert_core::*;
use dh_base::Id;
use key_ring::{KeySpec, account_of, make_envelope, make_ring};
use std::alloc::Global;
use std::process::Abort;
use std::test::Fail;

/// What the seats sign.
const TEXT: &[u8] = b"the log so far";

/// What makes the ring of one key of a seat.
fn spec_of(seat: u8) -> KeySpec
    ensures { result.size ≡ 1 }
{
    KeySpec {
        seed: [seat; 32],
        ident: [seat; 16],
        size: 1,
    }
}

/// The account of the seat's ring.
fn account(alloc: Global, seat: u8) -> Result<Id, Fail> {
    let ring = make_ring(alloc, &spec_of(seat))?;
    Ok(account_of(ring.as_slice()))
}

/// The set of epoch 0 whose seats have the accounts of these rings.
fn four_seats(rt: &impl Abort, alloc: Global) -> Result<Set, Fail> {
    let mut text = Vec::from_slice(alloc, b"CCDSET01\x00\x00\x00\x00\x00\x01")?;
    for seat in 0..4 {
        text.extend_from_slice(&account(alloc, seat)?.0)?;
    }
    assert!(rt; text.len() < 1000);
    Ok(read_set(&text)?)
}

/// The text as the ring says it, given as the seat's.
fn said(alloc: Global, seat: u16, ring: u8, text: &[u8]) -> Result<SeatSig, Fail>
    requires { length text.now ≤ 16384 }
{
    let env = make_envelope(alloc, &spec_of(ring), 0, text)?;
    Ok(SeatSig { seat, env })
}

/// Each seat with the ring of its number.
fn said_by(alloc: Global, seats: &[u8]) -> Result<Vec<SeatSig>, Fail> {
    let mut sigs = Vec::new(alloc);
    for seat in seats {
        sigs.push(said(alloc, u16::from(*seat), *seat, TEXT)?)?;
    }
    Ok(sigs)
}

#[test]
fn three_of_four_seats_are_a_quorum(rt: HostRuntime) -> Result<(), Fail> {
    let alloc = rt.alloc();
    let set = four_seats(&rt, alloc)?;
    assert_eq!(rt; quorum(&set, TEXT, &said_by(alloc, &[2, 0, 3])?), Ok(3));
    assert_eq!(rt; quorum(&set, TEXT, &said_by(alloc, &[0, 1, 2, 3])?), Ok(4));
    assert_eq!(rt;
        quorum(&set, TEXT, &said_by(alloc, &[2, 0])?),
        Err(QuorumFault::TooFew {
            counted: 2,
            needed: 3
        })
    );
    assert_eq!(rt;
        quorum(&set, TEXT, &said_by(alloc, &[2, 0, 2])?),
        Err(QuorumFault::SeatTwice { seat: 2 })
    );
    Ok(())
}

/// The fault of the signatures of three seats with two more behind them.
fn fault_with(
    rt: &impl Abort,
    alloc: Global,
    one: SeatSig,
    other: SeatSig,
) -> Result<Option<QuorumFault>, Fail> {
    let set = four_seats(rt, alloc)?;
    let mut sigs = said_by(alloc, &[0, 1, 2])?;
    sigs.push(one)?;
    sigs.push(other)?;
    Ok(quorum(&set, TEXT, &sigs).err())
}

#[test]
fn the_first_signature_at_fault_is_named(rt: HostRuntime) -> Result<(), Fail> {
    let alloc = rt.alloc();
    let other_text = said(alloc, 3, 3, b"another text")?;
    let outside = said(alloc, 4, 0, TEXT)?;
    assert_eq!(rt;
        fault_with(&rt, alloc, other_text, outside)?,
        Some(QuorumFault::OtherText { seat: 3 })
    );
    let other_ring = said(alloc, 3, 2, TEXT)?;
    let twice = said(alloc, 1, 1, TEXT)?;
    assert_eq!(rt;
        fault_with(&rt, alloc, other_ring, twice)?,
        Some(QuorumFault::NotItsRing { seat: 3 })
    );
    let outside = said(alloc, 4, 0, TEXT)?;
    let twice = said(alloc, 1, 1, TEXT)?;
    assert_eq!(rt;
        fault_with(&rt, alloc, outside, twice)?,
        Some(QuorumFault::SeatOutside { seat: 4 })
    );
    Ok(())
}
