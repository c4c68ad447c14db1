//! A seat of a set of epoch 1. Ids and digests were computed outside, by a program of its own.

mod loads;

use cert_core::{Set, read_set};
use deal_log::Posting;
use dh_base::{Id, Outcome, digest};
use keeper_core::Change;
use seat_rows::*;
use std::alloc::Global;
use std::process::Abort;
use std::test::Fail;
use vote_log::LogRecord;

/// The identity of the seat.
const IDENTITY: [u8; 32] = [
    0x5f, 0x10, 0x91, 0x59, 0x31, 0x39, 0xb5, 0xad, 0x1d, 0xe2, 0xab, 0xa9, 0x9f, 0x20, 0x1e, 0xaf,
    0x16, 0xed, 0xed, 0x2f, 0xb6, 0xa3, 0x6c, 0xf5, 0xb6, 0xd6, 0x79, 0xbf, 0xc6, 0xa5, 0x20, 0x81,
];

/// The digest of what it signs of one record.
const PREFIX: [u8; 32] = [
    0xf1, 0x1b, 0xcf, 0xa5, 0xf0, 0x7e, 0xcb, 0xf2, 0x7d, 0x08, 0xef, 0x6c, 0x19, 0x0f, 0x76, 0xeb,
    0x29, 0x02, 0x5f, 0xe6, 0x81, 0xe4, 0xde, 0xd2, 0xb8, 0xb6, 0xf2, 0x8d, 0x98, 0x82, 0x1b, 0xc8,
];

/// The digest of what it signs when it hands one record over.
const HANDOVER: [u8; 32] = [
    0x5c, 0xcd, 0xd0, 0x0d, 0x56, 0x95, 0xea, 0x92, 0x82, 0x99, 0x8e, 0x93, 0xe0, 0x45, 0x49, 0x85,
    0x2d, 0xd5, 0xc2, 0x9b, 0x0d, 0x77, 0xb9, 0x63, 0x15, 0xc3, 0x8e, 0x68, 0x55, 0x19, 0x0e, 0xe6,
];

const DEAL: Id = Id([7; 32]);

/// The set of that epoch whose one seat has an account that repeats a byte.
fn one_seat(rt: &impl Abort, alloc: Global, epoch: u8, account: u8) -> Result<Set, Fail> {
    let mut text = Vec::from_slice(alloc, b"CCDSET01\x00\x00\x00")?;
    text.push(epoch)?;
    text.extend_from_slice(&[0, 0])?;
    text.extend_from_slice(&[account; 32])?;
    assert!(rt; text.len() < 1000);
    Ok(read_set(&text)?)
}

fn place(rt: &impl Abort, alloc: Global) -> Result<SeatPlace, Fail> {
    Ok(SeatPlace {
        genesis: one_seat(rt, alloc, 0, 1)?,
        set: one_seat(rt, alloc, 1, 2)?,
        index: 0,
    })
}

#[test]
fn a_seat_has_an_identity_and_its_texts(rt: HostRuntime) -> Result<(), Fail> {
    let alloc = rt.alloc();
    let place = place(&rt, alloc)?;
    assert!(rt; !place.is_first());
    assert_eq!(rt; place.identity(&Id([2; 32])), Id(IDENTITY));
    let recs = [LogRecord::vote(Outcome::Commit, 1, DEAL)];
    assert_eq!(rt; digest(&text_of_prefix(&place, &recs, 1)), Id(PREFIX));
    let text = text_of_handover(&place, &recs, &place.genesis);
    assert_eq!(rt; digest(&text), Id(HANDOVER));
    Ok(())
}

#[test]
fn what_a_seat_commits(rt: HostRuntime) -> Result<(), Fail> {
    let alloc = rt.alloc();
    let place = place(&rt, alloc)?;
    let form = form_batch(alloc, &place, &Id([2; 32]))?;
    let Some(Change::Put { tab, key, val }) = form.changes().first() else {
        return Err(Fail::from("no row"));
    };
    assert!(rt; *tab == 1 && key.as_slice() == b"m".as_slice() && val.len() == 34);
    assert_eq!(rt; form_in(val.as_slice()), Some(Id(IDENTITY)));
    let vote = Posting::Vote {
        account: Id([3; 32]),
        choice: Outcome::Abort,
        index: 1,
        deal: DEAL,
    };
    let entry = entry_batch(alloc, 258, &vote)?;
    assert!(rt; entry.changes().len() == 1);
    let Some(Change::Put { tab, key, val }) = entry.changes().first() else {
        return Err(Fail::from("no row"));
    };
    assert!(rt; *tab == 9 && key.as_slice() == [0, 0, 1, 2].as_slice());
    assert!(rt; val.len() == 35 && val.as_slice()[0] == 3 && val.as_slice()[2] == 1);
    let next = place.genesis.copied();
    let closing = closing_batch(alloc, &Closing { len: 5, next })?;
    let Some(Change::Put { tab, key, val }) = closing.changes().first() else {
        return Err(Fail::from("no row"));
    };
    assert!(rt; *tab == 11 && key.as_slice() == b"c".as_slice() && val.len() == 50);
    assert!(rt; val.as_slice()[3] == 5 && val.as_slice()[4] == b'C');
    Ok(())
}
