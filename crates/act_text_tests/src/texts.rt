//! The digests and the places were worked out outside, by a program of its own.

ghost use Rattle.std.specs.Prelude.{◌≡◌, length, IfOk};
ghost use Rattle.act_text.specs.ActTexts.{TextFits};

use act_text::*;
use dh_base::{Id, List, Name, NoMemory, Outcome, digest};
use std::alloc::Global;
use std::process::Abort;
use std::test::Fail;

const HOUSE: Id = Id([0x11; 32]);

const BEN: Id = Id([0x22; 32]);

const DEAL: Id = Id([0x33; 32]);

const REGISTRATION: [u8; 32] = [
    0x14, 0xa8, 0x68, 0x2d, 0x40, 0x10, 0x41, 0xb0, 0xa9, 0x43, 0xb4, 0x1b, 0x86, 0x47, 0xff, 0xf6,
    0xed, 0x37, 0x14, 0x7a, 0xe1, 0xa1, 0xa0, 0x45, 0xb9, 0x90, 0x5d, 0x39, 0x4a, 0xcd, 0x93, 0x24,
];

const PAYMENT: [u8; 32] = [
    0x4b, 0x92, 0xfd, 0xa1, 0xf4, 0x38, 0xd3, 0x35, 0x52, 0xca, 0x04, 0xca, 0x73, 0x44, 0xea, 0x92,
    0xe5, 0x23, 0xf5, 0x41, 0xbf, 0xf3, 0x94, 0x37, 0x44, 0xba, 0x3c, 0x72, 0xa1, 0x97, 0xaa, 0x15,
];

const ESCROWING: [u8; 32] = [
    0x0b, 0xd5, 0xc5, 0xf2, 0x90, 0x9f, 0xc5, 0x72, 0x49, 0x3b, 0xb1, 0xa4, 0x55, 0x64, 0x81, 0x6e,
    0x9f, 0xfd, 0x11, 0x94, 0xa8, 0x76, 0x4e, 0x32, 0x44, 0xa5, 0x8e, 0x24, 0x80, 0xf3, 0x13, 0x2e,
];

const MOVE: [u8; 32] = [
    0xd2, 0x13, 0xb9, 0xb4, 0x63, 0xf6, 0xde, 0xdb, 0xe2, 0x4c, 0xba, 0x32, 0x71, 0x87, 0xd1, 0xf2,
    0xb7, 0x92, 0xb3, 0x73, 0x7a, 0xaf, 0xff, 0xac, 0xdc, 0xf2, 0x20, 0x74, 0x4c, 0xe4, 0x60, 0xbd,
];

const START: [u8; 32] = [
    0x47, 0x07, 0xe3, 0x5b, 0x79, 0x56, 0x69, 0xc3, 0xdb, 0x44, 0x89, 0x5c, 0x34, 0x61, 0x5d, 0xf9,
    0xe5, 0x67, 0xf9, 0xa3, 0x65, 0xe6, 0xe6, 0x90, 0x4a, 0xfd, 0xb6, 0x2d, 0x7b, 0xbf, 0x7f, 0x20,
];

const VOTE: [u8; 32] = [
    0x3c, 0xf7, 0xb4, 0x3d, 0x88, 0xd4, 0xfa, 0x35, 0x4b, 0x1b, 0x40, 0x4b, 0x35, 0x93, 0x89, 0xf1,
    0x42, 0x02, 0x62, 0x40, 0x70, 0x8c, 0xa9, 0x3f, 0xe1, 0xe2, 0x34, 0xa5, 0xf5, 0x5b, 0x2c, 0x1b,
];

const STATEMENT: [u8; 32] = [
    0x07, 0x23, 0xd4, 0x59, 0xf3, 0xcf, 0xbb, 0xd4, 0x17, 0x77, 0x7c, 0x0b, 0x46, 0xbb, 0x14, 0xfc,
    0x0a, 0xb3, 0xfa, 0x20, 0xf0, 0xd4, 0x4e, 0x17, 0xf7, 0xcb, 0x29, 0x5c, 0x6f, 0x82, 0x7b, 0x84,
];

fn named(text: &[u8]) -> Result<Name, Fail> {
    Ok(Name::from_bytes(text)?)
}

fn deal_text(alloc: Global) -> Result<List<u8>, Fail>
    ensures { IfOk result (λ text. length text ≡ 4) }
{
    Ok(List::from_vec(Vec::from_slice(alloc, b"deal")?))
}

fn pay(amount: u64) -> Result<Act, Fail>
    ensures { IfOk result (λ act. TextFits act) }
{
    Ok(Act::Pay {
        house: HOUSE,
        ledger: named(b"coins")?,
        to: BEN,
        asset: named(b"coin")?,
        amount,
    })
}

fn escrow() -> Result<Act, Fail>
    ensures { IfOk result (λ act. TextFits act) }
{
    Ok(Act::Escrow {
        deal: DEAL,
        ledger: named(b"coins")?,
        asset: named(b"coin")?,
        amount: u64::MAX / 2,
    })
}

fn transfer() -> Result<Act, Fail>
    ensures { IfOk result (λ act. TextFits act) }
{
    Ok(Act::Transfer {
        deal: DEAL,
        ledger: named(b"coins")?,
        turn: 7,
        to: BEN,
        asset: named(b"coin")?,
        amount: 1,
    })
}

fn vote() -> Act
    ensures { TextFits result }
{
    Act::Vote {
        deal: DEAL,
        index: 15,
        choice: Outcome::Abort,
    }
}

/// Whether the act has that text.
fn has_text(alloc: Global, act: &Act, text: &[u8]) -> Result<bool, Fail>
    requires { TextFits act.now }
{
    Ok(write_act(alloc, act)?.as_slice() == text)
}

/// The act has a text of that digest, which is read as an act of the office that has the same text.
fn goes_through(
    rt: &impl Abort,
    alloc: Global,
    office: Office,
    act: &Act,
    expected: [u8; 32],
) -> Result<(), Fail>
    requires { TextFits act.now }
{
    let text = write_act(alloc, act)?;
    assert_eq!(rt; digest(text.as_slice()), Id(expected));
    assert!(rt; text.len() < 100);
    let again = read_act(alloc, office, text.as_slice())?;
    assert!(rt; has_text(alloc, &again, text.as_slice())?);
    let other = match office {
        Office::Ledger => Office::Log,
        Office::Log => Office::Ledger,
    };
    assert_eq!(rt;
        read_act(alloc, other, text.as_slice()).err(),
        Some(ActFault::BadTag)
    );
    Ok(())
}

#[test]
fn acts_of_a_ledger_go_through_their_texts(rt: HostRuntime) -> Result<(), Fail> {
    let alloc = rt.alloc();
    let register = Act::Register {
        text: deal_text(alloc)?,
    };
    goes_through(&rt, alloc, Office::Ledger, &register, REGISTRATION)?;
    goes_through(&rt, alloc, Office::Ledger, &pay(100)?, PAYMENT)?;
    goes_through(&rt, alloc, Office::Ledger, &escrow()?, ESCROWING)?;
    goes_through(&rt, alloc, Office::Ledger, &transfer()?, MOVE)?;
    Ok(())
}

#[test]
fn acts_of_a_log_go_through_their_texts(rt: HostRuntime) -> Result<(), Fail> {
    let alloc = rt.alloc();
    let start = Act::StartDeal {
        text: deal_text(alloc)?,
    };
    goes_through(&rt, alloc, Office::Log, &start, START)?;
    goes_through(&rt, alloc, Office::Log, &vote(), VOTE)?;
    Ok(())
}

/// The fault of the bytes of a payment, of which one is another and those behind a place are cut
/// off.
fn fault_of_payment(
    rt: &impl Abort,
    alloc: Global,
    place: usize,
    byte: u8,
    len: usize,
) -> Result<Option<ActFault>, Fail> {
    let mut text = write_act(alloc, &pay(100)?)?.into_vec();
    if place < text.len() {
        text[place] = byte;
    }
    if len < text.len() {
        text.truncate(len);
    }
    assert!(rt; text.len() < 100);
    Ok(read_act(alloc, Office::Ledger, &text).err())
}

#[test]
fn the_first_field_at_fault_is_named(rt: HostRuntime) -> Result<(), Fail> {
    let alloc = rt.alloc();
    assert_eq!(rt; fault_of_payment(&rt, alloc, 0, b'C', 92)?, None);
    assert_eq!(rt;
        fault_of_payment(&rt, alloc, 7, b'2', 92)?,
        Some(ActFault::BadTag)
    );
    assert_eq!(rt;
        fault_of_payment(&rt, alloc, 8, 5, 92)?,
        Some(ActFault::BadTag)
    );
    assert_eq!(rt;
        fault_of_payment(&rt, alloc, 0, b'C', 8)?,
        Some(ActFault::BadTag)
    );
    assert_eq!(rt;
        fault_of_payment(&rt, alloc, 0, b'C', 40)?,
        Some(ActFault::Short { at: 9 })
    );
    assert_eq!(rt;
        fault_of_payment(&rt, alloc, 0, b'C', 46)?,
        Some(ActFault::Short { at: 41 })
    );
    assert_eq!(rt;
        fault_of_payment(&rt, alloc, 41, 0, 42)?,
        Some(ActFault::BadField { at: 41 })
    );
    assert_eq!(rt;
        fault_of_payment(&rt, alloc, 42, b'1', 92)?,
        Some(ActFault::BadField { at: 41 })
    );
    assert_eq!(rt;
        fault_of_payment(&rt, alloc, 79, 17, 92)?,
        Some(ActFault::BadField { at: 79 })
    );
    assert_eq!(rt;
        fault_of_payment(&rt, alloc, 84, 0x80, 92)?,
        Some(ActFault::BadField { at: 84 })
    );
    assert_eq!(rt;
        fault_of_payment(&rt, alloc, 84, 0x80, 91)?,
        Some(ActFault::Short { at: 84 })
    );
    Ok(())
}

#[test]
fn a_vote_has_a_choice_and_nothing_behind_it(rt: HostRuntime) -> Result<(), Fail> {
    let alloc = rt.alloc();
    let mut text = write_act(alloc, &vote())?.into_vec();
    assert_eq!(rt; text.len(), 44);
    text[43] = 4;
    let fault = read_act(alloc, Office::Log, &text).err();
    assert_eq!(rt; fault, Some(ActFault::BadField { at: 43 }));
    text[43] = 2;
    assert!(rt; read_act(alloc, Office::Log, &text).is_ok());
    text.push(0)?;
    let fault = read_act(alloc, Office::Log, &text).err();
    assert_eq!(rt; fault, Some(ActFault::Trailing { at: 44 }));
    Ok(())
}

#[test]
fn a_deal_text_may_be_cut(rt: HostRuntime) -> Result<(), Fail> {
    let alloc = rt.alloc();
    let act = Act::Register {
        text: deal_text(alloc)?,
    };
    let text = write_act(alloc, &act)?;
    assert_eq!(rt; text.len(), 17);
    let fault = read_act(alloc, Office::Ledger, &text.as_slice()[..16]).err();
    assert_eq!(rt; fault, Some(ActFault::Short { at: 13 }));
    let fault = read_act(alloc, Office::Ledger, &text.as_slice()[..12]).err();
    assert_eq!(rt; fault, Some(ActFault::Short { at: 9 }));
    Ok(())
}

#[test]
fn a_statement_has_its_text(rt: HostRuntime) -> Result<(), Fail> {
    let alloc = rt.alloc();
    let mut rows = Vec::new(alloc);
    rows.push(HeldRow {
        asset: named(b"coin")?,
        amount: 100,
    })?;
    rows.push(HeldRow {
        asset: named(b"gold")?,
        amount: 5,
    })?;
    let statement = Statement {
        house: HOUSE,
        ledger: named(b"coins")?,
        deal: DEAL,
        party: BEN,
        at: 9,
        moves: 2,
        rows: List::from_vec(rows),
        settled: Some(Outcome::Commit),
    };
    assert_eq!(rt; statement.rows.len(), 2);
    let text = write_statement(alloc, &statement)?;
    assert_eq!(rt; digest(text.as_slice()), Id(STATEMENT));
    Ok(())
}
