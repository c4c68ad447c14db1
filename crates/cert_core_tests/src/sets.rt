//! The ids were computed outside, by a program of its own.

use cert_core::*;
use dh_base::Id;
use std::alloc::Global;
use std::process::Abort;
use std::test::Fail;

/// The digest of the text of the set below.
const SET_ID: [u8; 32] = [
    0x5e, 0x94, 0x0c, 0xb0, 0x1b, 0xcf, 0xf9, 0xbf, 0xce, 0xcf, 0xa9, 0xfa, 0xce, 0xf2, 0x0e, 0xb8,
    0x3d, 0x38, 0x67, 0x40, 0x52, 0xac, 0xb6, 0xd0, 0x07, 0x58, 0x74, 0xfe, 0x3a, 0x73, 0x3c, 0x01,
];

/// The text of the set of epoch 7 that lets one of four seats deviate, each of whose accounts
/// repeats a byte.
fn four_seats(alloc: Global, accounts: [u8; 4]) -> Result<Vec<u8>, Fail> {
    let mut text = Vec::from_slice(alloc, b"CCDSET01\x00\x00\x00\x07\x00\x01")?;
    for account in accounts {
        text.extend_from_slice(&[account; 32])?;
    }
    Ok(text)
}

#[test]
fn a_set_goes_through_its_text(rt: HostRuntime) -> Result<(), Fail> {
    let alloc = rt.alloc();
    let text = four_seats(alloc, [1, 2, 3, 4])?;
    assert!(rt; text.len() < 1000);
    let set = read_set(&text)?;
    assert_eq!(rt; set.epoch, 7);
    assert_eq!(rt; set.f, 1);
    assert_eq!(rt; set.accounts().len(), 4);
    assert_eq!(rt; set_id(&set), Id(SET_ID));
    assert_eq!(rt; write_set(alloc, &set)?.as_slice(), text.as_slice());
    assert_eq!(rt; set_id(&set.copied()), Id(SET_ID));
    Ok(())
}

/// The fault of the text of four seats, of which one byte is another and those behind a place are
/// cut off.
fn fault_at(
    rt: &impl Abort,
    alloc: Global,
    place: usize,
    byte: u8,
    len: usize,
) -> Result<Option<SetFault>, Fail> {
    let mut text = four_seats(alloc, [1, 2, 3, 4])?;
    if place < text.len() {
        text[place] = byte;
    }
    if len < text.len() {
        text.truncate(len);
    }
    assert!(rt; text.len() < 1000);
    Ok(read_set(&text).err())
}

#[test]
fn the_first_thing_wrong_is_named(rt: HostRuntime) -> Result<(), Fail> {
    let alloc = rt.alloc();
    assert_eq!(rt; fault_at(&rt, alloc, 0, b'C', 142)?, None);
    assert_eq!(rt; fault_at(&rt, alloc, 7, b'2', 142)?, Some(SetFault::BadTag));
    assert_eq!(rt; fault_at(&rt, alloc, 0, b'C', 7)?, Some(SetFault::BadTag));
    assert_eq!(rt;
        fault_at(&rt, alloc, 0, b'C', 13)?,
        Some(SetFault::BadLength { len: 13 })
    );
    assert_eq!(rt;
        fault_at(&rt, alloc, 13, 6, 14)?,
        Some(SetFault::BadF { f: 6 })
    );
    assert_eq!(rt;
        fault_at(&rt, alloc, 13, 5, 142)?,
        Some(SetFault::BadLength { len: 142 })
    );
    assert_eq!(rt;
        fault_at(&rt, alloc, 0, b'C', 141)?,
        Some(SetFault::BadLength { len: 141 })
    );
    Ok(())
}

/// The fault of the text of four seats with these accounts.
fn fault_of(rt: &impl Abort, alloc: Global, accounts: [u8; 4]) -> Result<Option<SetFault>, Fail> {
    let text = four_seats(alloc, accounts)?;
    assert!(rt; text.len() < 1000);
    Ok(read_set(&text).err())
}

#[test]
fn the_least_seat_is_named_whose_account_stands_before_it(rt: HostRuntime) -> Result<(), Fail> {
    let alloc = rt.alloc();
    assert_eq!(rt; fault_of(&rt, alloc, [1, 2, 3, 4])?, None);
    assert_eq!(rt;
        fault_of(&rt, alloc, [1, 2, 1, 2])?,
        Some(SetFault::SeatTwice { seat: 2 })
    );
    assert_eq!(rt;
        fault_of(&rt, alloc, [5, 6, 7, 6])?,
        Some(SetFault::SeatTwice { seat: 3 })
    );
    Ok(())
}
