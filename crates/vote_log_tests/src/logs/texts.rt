//! Texts of records, and heads, whose values were computed outside, by a program of its own.

ghost use Rattle.std.specs.Prelude.{◌≤◌, length};

use super::*;

const HOUSE: Id = Id([9; 32]);

/// The head of the empty log of the house 9, 9, ...
const FIRST_HEAD: [u8; 32] = [
    0x45, 0xe9, 0xef, 0xc4, 0x4f, 0x03, 0x32, 0x6f, 0xf5, 0x12, 0x75, 0xac, 0xc8, 0x96, 0x78, 0x5f,
    0xd4, 0x52, 0x6f, 0x19, 0x11, 0x2d, 0xd1, 0xe5, 0x70, 0x2c, 0xb5, 0xc8, 0x46, 0x11, 0xce, 0x80,
];

/// The head of that house's log of a start of two parties, a commit by the first and an abort by
/// the second.
const THIRD_HEAD: [u8; 32] = [
    0x1d, 0xc1, 0xa8, 0x37, 0x2c, 0x39, 0xd2, 0x55, 0xe1, 0xe1, 0x4b, 0x60, 0x6c, 0x15, 0xb0, 0xd2,
    0x5c, 0x10, 0x75, 0xfb, 0xad, 0xe0, 0x65, 0xa2, 0x3c, 0xf5, 0x21, 0x30, 0xba, 0x97, 0x2d, 0x58,
];

/// The text of a record of the deal 7, 7, ... that begins with these bytes.
fn text(kind: u8, num: u8) -> [u8; 35] {
    let mut text = [7; 35];
    text[0] = kind;
    text[1] = 0;
    text[2] = num;
    text
}

/// Whether the record has the text that begins with these bytes.
fn writes(rec: &LogRecord, kind: u8, num: u8) -> bool {
    record_text(rec) == text(kind, num)
}

/// Whether the record stands there.
fn reads(bytes: &[u8], at: u32, rec: &LogRecord) -> bool
    requires { length bytes.now ≤ 40 }
{
    match record_at(bytes, at) {
        Ok(read) => read == *rec,
        Err(_) => false,
    }
}

#[test]
fn records_have_their_texts(rt: HostRuntime) {
    assert!(rt; writes(&start(2), 1, 2));
    assert!(rt; writes(&commit(0), 2, 0));
    assert!(rt; writes(&abort(15), 3, 15));
}

#[test]
fn records_are_read_from_their_texts(rt: HostRuntime) {
    assert!(rt; reads(&text(1, 16), 0, &start(16)));
    assert!(rt; reads(&text(2, 15), 0, &commit(15)));
    assert!(rt; reads(&text(3, 0), 0, &abort(0)));
}

#[test]
fn a_record_is_read_among_other_bytes(rt: HostRuntime) {
    let mut longer = [7; 40];
    longer[3..38].copy_from_slice(&text(2, 1));
    assert!(rt; reads(&longer, 3, &commit(1)));
}

/// Whether the first field at fault of the first bytes of such a text begins there.
fn breaks_at(kind: u8, num: u8, len: usize, at: u32) -> bool
    requires { len ≤ 35 }
{
    match record_at(&text(kind, num)[..len], 0) {
        Ok(_) => false,
        Err(fault) => fault.at == at,
    }
}

#[test]
fn a_field_out_of_range_is_named(rt: HostRuntime) {
    for (kind, num, at) in [
        (0, 2, 0),
        (4, 2, 0),
        (1, 1, 1),
        (1, 17, 1),
        (2, 16, 1),
        (3, 16, 1),
    ] {
        assert!(rt; breaks_at(kind, num, 35, at), "at {kind} {num}");
    }
}

#[test]
fn a_field_that_is_cut_is_named(rt: HostRuntime) {
    assert!(rt; breaks_at(1, 2, 34, 3));
    assert!(rt; breaks_at(1, 2, 2, 1));
    assert!(rt; breaks_at(1, 2, 0, 0));
}

#[test]
fn nothing_stands_behind_the_bytes(rt: HostRuntime) {
    let fault = record_at(&text(1, 2), 40).err();
    assert!(rt; fault == Some(RecordFault { at: 40 }));
}

#[test]
fn heads_of_a_house(rt: HostRuntime) {
    assert!(rt; head_of(&HOUSE, &[]) == Id(FIRST_HEAD));
    let recs = [start(2), commit(0), abort(1)];
    assert!(rt; head_of(&HOUSE, &recs) == Id(THIRD_HEAD));
}

#[test]
fn a_head_goes_onward(rt: HostRuntime) {
    let empty = first_head(&HOUSE);
    assert!(rt; empty == Id(FIRST_HEAD));
    let first = head_onward(&empty, &[start(2)]);
    assert!(rt; head_onward(&first, &[commit(0), abort(1)]) == Id(THIRD_HEAD));
}
