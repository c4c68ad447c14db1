//! The digests, of the key and the value of a row, were worked out outside, by a program of its
//! own.

ghost use Rattle.std.specs.Prelude.{◌≡◌, IfOk};
ghost use Rattle.act_text.specs.ActTexts.{TextFits};

use act_text::{Act, write_act};
use dh_base::{Id, List, Name, Outcome, digest};
use keeper_core::{Batch, Keeper, MemKeeper, Row, StoreFault};
use ledger_rows::keys::{entry_key, free_key, hold_key, moves_key, used_key};
use ledger_rows::*;
use std::alloc::Global;
use std::process::Abort;
use std::test::Fail;

const HOUSE: Id = Id([0x11; 32]);

const ANN: Id = Id([0x22; 32]);

const DEAL: Id = Id([0x33; 32]);

const BEN: Id = Id([0x44; 32]);

/// What the account can spend of its asset.
const FREE_ROW: [u8; 32] = [
    0x24, 0x04, 0x82, 0x4b, 0xe2, 0x10, 0x8f, 0x2f, 0xcf, 0xb9, 0x84, 0x20, 0xa3, 0x40, 0xf9, 0x2a,
    0x1d, 0x68, 0x02, 0xf2, 0x72, 0x6f, 0x3d, 0x6e, 0x07, 0xc0, 0x71, 0x85, 0xd8, 0x4d, 0x7a, 0x8a,
];

/// The deal, which has committed.
const DEAL_ROW: [u8; 32] = [
    0x98, 0x6e, 0x0d, 0x64, 0x5a, 0x22, 0xf8, 0x78, 0xc9, 0xa6, 0x15, 0xdf, 0x6e, 0x79, 0x45, 0xa2,
    0x47, 0x2d, 0xde, 0xba, 0xbf, 0xc0, 0xc0, 0xa0, 0x99, 0x0b, 0x07, 0x9b, 0x35, 0x7d, 0x70, 0x22,
];

/// What the account owns in the deal.
const HOLD_ROW: [u8; 32] = [
    0x53, 0x70, 0xed, 0x0a, 0x4b, 0x7a, 0x3c, 0x0c, 0xb0, 0x2a, 0x03, 0xed, 0xde, 0xd5, 0x56, 0xae,
    0xab, 0x8a, 0x23, 0xe0, 0x90, 0x5c, 0x10, 0xbf, 0x65, 0xaf, 0xbe, 0x2a, 0x6f, 0x1e, 0x37, 0x23,
];

/// The two transfers of the account.
const MOVES_ROW: [u8; 32] = [
    0xf7, 0x25, 0xf5, 0x14, 0x50, 0x0b, 0xea, 0xf2, 0x16, 0xb7, 0xd1, 0x0b, 0x47, 0x9e, 0x13, 0x02,
    0xf1, 0xe4, 0x5e, 0x41, 0x98, 0x79, 0x0a, 0xe8, 0xf7, 0xe5, 0xd2, 0x32, 0xeb, 0x45, 0xa6, 0xf5,
];

/// What key 7 of the account has signed.
const USED_ROW: [u8; 32] = [
    0xb4, 0x78, 0x14, 0x03, 0x5b, 0x33, 0x19, 0x89, 0xc7, 0xd1, 0xd6, 0x6c, 0xaf, 0xf2, 0x31, 0xe7,
    0x07, 0xce, 0x94, 0xca, 0xac, 0xee, 0x4a, 0xf2, 0xd2, 0x97, 0xc2, 0x3f, 0xa3, 0xa6, 0x7d, 0x36,
];

/// The payment.
const ACT_ROW: [u8; 32] = [
    0xf6, 0x24, 0xdc, 0xc8, 0x22, 0x68, 0x21, 0x16, 0x14, 0x47, 0x11, 0x5c, 0x9c, 0xdc, 0x70, 0x6c,
    0x1a, 0xc2, 0x13, 0x5d, 0x19, 0xd4, 0xfe, 0x02, 0xb3, 0x2e, 0x67, 0x3d, 0x8d, 0xe8, 0x8e, 0xc4,
];

/// The end of the deal.
const END_ROW: [u8; 32] = [
    0x67, 0x74, 0xf7, 0x56, 0x07, 0x97, 0xfd, 0x2c, 0x8e, 0x03, 0x3c, 0x67, 0x7d, 0x81, 0x83, 0x20,
    0x24, 0x95, 0x9a, 0x66, 0xea, 0x65, 0x64, 0x73, 0x17, 0x00, 0x59, 0x0c, 0x51, 0xaa, 0xbe, 0xa6,
];

fn coin() -> Result<Name, Fail> {
    Ok(Name::from_bytes(b"coin")?)
}

fn bytes(alloc: Global, text: &[u8]) -> Result<List<u8>, Fail> {
    Ok(List::from_vec(Vec::from_slice(alloc, text)?))
}

fn payment(alloc: Global) -> Result<Entry, Fail> {
    let act = Act::Pay {
        house: HOUSE,
        ledger: Name::from_bytes(b"coins")?,
        to: BEN,
        asset: coin()?,
        amount: 100,
    };
    Ok(Entry::Act {
        account: ANN,
        q: 7,
        message: write_act(alloc, &act)?,
    })
}

fn put_amounts(alloc: Global, batch: &mut Batch, coin: &Name) -> Result<(), Fail> {
    put_free(alloc, batch, &ANN, coin, 100)?;
    put_free(alloc, batch, &BEN, coin, 0)?;
    let hold = Hold {
        commit: 100,
        abort: 1,
    };
    put_hold(alloc, batch, &DEAL, &ANN, coin, &hold)?;
    put_moves(alloc, batch, &DEAL, &ANN, 2)?;
    Ok(())
}

fn put_history(alloc: Global, batch: &mut Batch) -> Result<(), Fail> {
    let act = payment(alloc)?;
    let Entry::Act { message, .. } = &act else {
        return Ok(());
    };
    let used = UsedKey {
        at: 9,
        message: digest(message.as_slice()),
    };
    put_used(alloc, batch, &ANN, 7, &used)?;
    put_entry(alloc, batch, 9, &act)?;
    let end = Entry::Settlement {
        deal: DEAL,
        outcome: Outcome::Abort,
    };
    put_entry(alloc, batch, 10, &end)?;
    Ok(())
}

/// A keeper with a row of each kind.
fn kept(alloc: Global) -> Result<MemKeeper, Fail> {
    let mut batch = Batch::new(alloc);
    put_amounts(alloc, &mut batch, &coin()?)?;
    let registration = Registration {
        registrant: ANN,
        settled: Some(Outcome::Commit),
        text: bytes(alloc, b"deal")?,
    };
    put_registration(alloc, &mut batch, &DEAL, &registration)?;
    put_history(alloc, &mut batch)?;
    let mut keeper = MemKeeper::new(alloc);
    keeper.commit(&batch)?;
    Ok(keeper)
}

fn row_digest(alloc: Global, row: &Row) -> Result<[u8; 32], Fail> {
    let mut text = Vec::from_slice(alloc, row.key.as_slice())?;
    text.extend_from_slice(row.val.as_slice())?;
    Ok(digest(&text).0)
}

/// The rows of the table, and no others, have these digests.
fn expect_rows(
    rt: &impl Abort,
    alloc: Global,
    keeper: &mut MemKeeper,
    tab: u8,
    digests: &[[u8; 32]],
) -> Result<(), Fail> {
    let rows = keeper.scan(tab)?;
    assert_eq!(rt; rows.len(), digests.len(), "in table {tab}");
    for (row, expected) in rows.as_slice().iter().zip(digests.iter()) {
        assert_eq!(rt; row_digest(alloc, row)?, *expected, "in table {tab}");
    }
    Ok(())
}

#[test]
fn rows_have_their_bytes(rt: HostRuntime) -> Result<(), Fail> {
    let alloc = rt.alloc();
    let mut keeper = kept(alloc)?;
    expect_rows(&rt, alloc, &mut keeper, FREE_TAB, &[FREE_ROW])?;
    expect_rows(&rt, alloc, &mut keeper, DEAL_TAB, &[DEAL_ROW])?;
    expect_rows(&rt, alloc, &mut keeper, HOLD_TAB, &[HOLD_ROW])?;
    expect_rows(&rt, alloc, &mut keeper, MOVES_TAB, &[MOVES_ROW])?;
    expect_rows(&rt, alloc, &mut keeper, USED_TAB, &[USED_ROW])?;
    expect_rows(&rt, alloc, &mut keeper, ENTRY_TAB, &[ACT_ROW, END_ROW])
}

#[test]
fn amounts_are_read_again(rt: HostRuntime) -> Result<(), Fail> {
    let alloc = rt.alloc();
    let mut keeper = kept(alloc)?;
    let key = free_key(alloc, &ANN, &coin()?)?;
    let free: Option<FreeAmount> = read_row(alloc, &mut keeper, FREE_TAB, &key)?;
    assert_eq!(rt; free, Some(FreeAmount { amount: 100 }));
    let key = free_key(alloc, &BEN, &coin()?)?;
    let free: Option<FreeAmount> = read_row(alloc, &mut keeper, FREE_TAB, &key)?;
    assert_eq!(rt; free, None);
    let key = hold_key(alloc, &DEAL, &ANN, &coin()?)?;
    let hold: Option<Hold> = read_row(alloc, &mut keeper, HOLD_TAB, &key)?;
    assert_eq!(rt; hold.map(|hold| (hold.commit, hold.abort)), Some((100, 1)));
    let key = moves_key(alloc, &DEAL, &ANN)?;
    let moves: Option<MoveCount> = read_row(alloc, &mut keeper, MOVES_TAB, &key)?;
    assert_eq!(rt; moves, Some(MoveCount { count: 2 }));
    Ok(())
}

#[test]
fn deals_and_entries_are_read_again(rt: HostRuntime) -> Result<(), Fail> {
    let alloc = rt.alloc();
    let mut keeper = kept(alloc)?;
    let deal: Option<Registration> = read_row(alloc, &mut keeper, DEAL_TAB, &DEAL.0)?;
    assert_eq!(rt;
        deal.map(|deal| (deal.registrant, deal.settled)),
        Some((ANN, Some(Outcome::Commit)))
    );
    let key = used_key(alloc, &ANN, 7)?;
    let used: Option<UsedKey> = read_row(alloc, &mut keeper, USED_TAB, &key)?;
    assert_eq!(rt; used.map(|used| used.at), Some(9));
    let entry: Option<Entry> = read_row(alloc, &mut keeper, ENTRY_TAB, &entry_key(9))?;
    assert!(rt; matches!(&entry, Some(Entry::Act { q: 7, .. })));
    let entry: Option<Entry> = read_row(alloc, &mut keeper, ENTRY_TAB, &entry_key(10))?;
    assert!(rt;
        matches!(
            &entry,
            Some(Entry::Settlement {
                outcome: Outcome::Abort,
                ..
            })
        )
    );
    Ok(())
}

/// What is read of a row of that value.
fn read_free(alloc: Global, val: &[u8]) -> Result<Result<Option<FreeAmount>, StoreFault>, Fail> {
    let mut batch = Batch::new(alloc);
    batch.put(FREE_TAB, b"key", val)?;
    let mut keeper = MemKeeper::new(alloc);
    keeper.commit(&batch)?;
    Ok(read_row(alloc, &mut keeper, FREE_TAB, b"key"))
}

#[test]
fn a_row_of_another_form_is_named(rt: HostRuntime) -> Result<(), Fail> {
    let alloc = rt.alloc();
    let fault = StoreFault::BadRow {
        tab: 2,
        key: digest(b"key"),
    };
    assert_eq!(rt; read_free(alloc, &[0; 8])?.err(), Some(fault));
    assert_eq!(rt; read_free(alloc, &[1; 7])?.err(), Some(fault));
    assert_eq!(rt;
        read_free(alloc, &[0, 0, 0, 0, 0, 0, 0, 1])?.ok(),
        Some(Some(FreeAmount { amount: 1 }))
    );
    Ok(())
}

fn register(
    alloc: Global,
    batch: &mut Batch,
    deal: &Id,
    registrant: Id,
    settled: Option<Outcome>,
) -> Result<(), Fail> {
    let registration = Registration {
        registrant,
        settled,
        text: bytes(alloc, b"deal")?,
    };
    put_registration(alloc, batch, deal, &registration)?;
    Ok(())
}

#[test]
fn open_deals_are_counted(rt: HostRuntime) -> Result<(), Fail> {
    let alloc = rt.alloc();
    let mut batch = Batch::new(alloc);
    register(alloc, &mut batch, &Id([1; 32]), ANN, None)?;
    register(alloc, &mut batch, &Id([2; 32]), ANN, Some(Outcome::Commit))?;
    register(alloc, &mut batch, &Id([3; 32]), ANN, Some(Outcome::Abort))?;
    register(alloc, &mut batch, &Id([4; 32]), ANN, None)?;
    register(alloc, &mut batch, &Id([5; 32]), BEN, None)?;
    let mut keeper = MemKeeper::new(alloc);
    assert_eq!(rt; count_open(&mut keeper, &ANN)?, 0);
    keeper.commit(&batch)?;
    assert_eq!(rt; count_open(&mut keeper, &ANN)?, 2);
    assert_eq!(rt; count_open(&mut keeper, &BEN)?, 1);
    let deal = Id([1; 32]);
    assert_eq!(rt; count_open_unless(alloc, &mut keeper, &ANN, &deal)?, None);
    assert_eq!(rt;
        count_open_unless(alloc, &mut keeper, &ANN, &DEAL)?,
        Some(2)
    );
    let mut bad = Batch::new(alloc);
    bad.put(DEAL_TAB, b"key", &[0; 32])?;
    keeper.commit(&bad)?;
    let fault = StoreFault::BadRow {
        tab: 3,
        key: digest(b"key"),
    };
    assert_eq!(rt; count_open(&mut keeper, &ANN).err(), Some(fault));
    assert_eq!(rt;
        count_open_unless(alloc, &mut keeper, &ANN, &DEAL).err(),
        Some(fault)
    );
    assert_eq!(rt; count_open_unless(alloc, &mut keeper, &ANN, &deal)?, None);
    Ok(())
}
