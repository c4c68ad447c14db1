//! A small ledger, worked out by hand.

use dh_base::{Id, List, Name, NoMemory, Outcome};
use escrow_book::*;
use std::alloc::Global;
use std::test::Fail;

const ANN: Id = Id([1; 32]);

const BEN: Id = Id([2; 32]);

const STRANGER: Id = Id([3; 32]);

const DEAL: Id = Id([9; 32]);

fn coin() -> Name {
    let mut chars = [0; 16];
    chars[..4].copy_from_slice(b"coin");
    Name { chars, len: 4 }
}

/// Ann has 5 coins.
fn opened(alloc: Global) -> Result<Book, NoMemory> {
    Book::start(alloc, &[(ANN, coin(), 5)])
}

/// Ann hands an escrowed coin on, at that turn.
fn hand_on(book: &mut Book, turn: u32) -> Result<(), BookFault> {
    if book.moves(&DEAL, &ANN) < 1000 {
        book.transfer(&DEAL, &ANN, turn, &BEN, &coin(), 1)
    } else {
        Ok(())
    }
}

/// Ann escrows 4 of her coins for a deal with Ben, and hands 1 of them on.
fn under_way(alloc: Global) -> Result<Book, BookFault> {
    let mut book = match opened(alloc) {
        Ok(book) => book,
        Err(NoMemory) => return Err(BookFault::NoMemory),
    };
    book.register(&DEAL, &[ANN, BEN])?;
    book.escrow(&DEAL, &ANN, &coin(), 4)?;
    hand_on(&mut book, 0)?;
    Ok(book)
}

/// Settles the deal, and settles it again.
fn settled_twice(book: &mut Book) -> Result<(), BookFault> {
    book.settle(&DEAL, Outcome::Abort)?;
    book.settle(&DEAL, Outcome::Commit)
}

#[test]
fn commit_pays(rt: HostRuntime) -> Result<(), Fail> {
    let coin = coin();
    let mut book = under_way(rt.alloc())?;
    assert_eq!(rt; book.opening_rows().len(), 1);
    assert!(rt; book.is_registered(&DEAL));
    assert_eq!(rt; book.parties(&DEAL).map_or(0, |parties| parties.len()), 2);
    assert_eq!(rt; book.moves(&DEAL, &ANN), 1);
    assert_eq!(rt; book.free(&ANN, &coin), 1);
    assert_eq!(rt; book.if_commit(&DEAL, &ANN, &coin), 3);
    assert_eq!(rt; book.if_commit(&DEAL, &BEN, &coin), 1);
    assert_eq!(rt; book.if_abort(&DEAL, &ANN, &coin), 4);
    assert_eq!(rt; book.if_abort(&DEAL, &BEN, &coin), 0);
    assert_eq!(rt; book.settlement(&DEAL), None);
    assert_eq!(rt; book.settle(&DEAL, Outcome::Commit), Ok(()));
    assert_eq!(rt; book.settlement(&DEAL), Some(Outcome::Commit));
    assert_eq!(rt; book.free(&ANN, &coin), 4);
    assert_eq!(rt; book.free(&BEN, &coin), 1);
    assert_eq!(rt; book.pay(&ANN, &BEN, &coin, 3), Ok(()));
    assert_eq!(rt; book.free(&ANN, &coin), 1);
    assert_eq!(rt; book.free(&BEN, &coin), 4);
    Ok(())
}

#[test]
fn abort_returns(rt: HostRuntime) -> Result<(), Fail> {
    let coin = coin();
    let mut book = under_way(rt.alloc())?;
    assert_eq!(rt; book.settle(&DEAL, Outcome::Abort), Ok(()));
    assert_eq!(rt; book.free(&ANN, &coin), 5);
    assert_eq!(rt; book.free(&BEN, &coin), 0);
    Ok(())
}

#[test]
fn refusals_as_text(rt: HostRuntime) -> Result<(), Fail> {
    let mut book = under_way(rt.alloc())?;
    let faults = [
        (book.settle(&ANN, Outcome::Abort), "1 UnknownDeal"),
        (
            book.escrow(&DEAL, &STRANGER, &coin(), 1),
            "2 NotAParty 0303030303030303030303030303030303030303030303030303030303030303",
        ),
        (hand_on(&mut book, 0), "4 WrongTurn 1"),
        (book.pay(&ANN, &ANN, &coin(), 1), "5 ZeroOrSelf"),
        (book.pay(&ANN, &BEN, &coin(), 2), "6 Short 1"),
        (settled_twice(&mut book), "3 DealSettled abort"),
    ];
    for (answer, text) in faults {
        match answer {
            Ok(()) => assert!(rt; false),
            Err(fault) => {
                let told = format!(in rt.alloc(); "{fault}")?;
                assert_eq!(rt; told.as_str(), text);
            }
        }
    }
    Ok(())
}

/// Ann may spend that much, and Ben that much.
fn two_amounts(ann: Id, ben: Id, most: u64) -> [BookRow; 2] {
    [
        BookRow::Free {
            account: ann,
            asset: coin(),
            amount: most,
        },
        BookRow::Free {
            account: ben,
            asset: coin(),
            amount: 1,
        },
    ]
}

/// The deal and what its parties hold, after Ann has handed 5 coins to Ben.
fn handed_over(alloc: Global) -> Result<[BookRow; 4], NoMemory> {
    Ok([
        BookRow::Deal {
            deal: DEAL,
            parties: List::from_vec(Vec::from_slice(alloc, &[ANN, BEN])?),
            settled: None,
        },
        BookRow::Hold {
            deal: DEAL,
            account: ANN,
            asset: coin(),
            commit: 0,
            abort: 5,
        },
        BookRow::Hold {
            deal: DEAL,
            account: BEN,
            asset: coin(),
            commit: 5,
            abort: 0,
        },
        BookRow::Moves {
            deal: DEAL,
            account: ANN,
            moves: 1,
        },
    ])
}

/// The refusal of a part of these rows, as text.
fn part_refusal(alloc: Global, rows: &[BookRow]) -> Result<String, NoMemory> {
    match Book::part(alloc, rows) {
        Ok(_) => Ok(format!(in alloc; "none")?),
        Err(fault) => Ok(format!(in alloc; "{fault}")?),
    }
}

#[test]
fn book_part_refusals(rt: HostRuntime) -> Result<(), Fail> {
    let alloc = rt.alloc();
    let rows = two_amounts(ANN, BEN, 9223372036854775807);
    assert_eq!(rt; part_refusal(alloc, &rows)?.as_str(), "2 SumTooLarge 1");
    let rows = two_amounts(ANN, ANN, 1);
    assert_eq!(rt; part_refusal(alloc, &rows)?.as_str(), "1 BadRows 1");
    let rows = two_amounts(ANN, BEN, 9223372036854775806);
    assert_eq!(rt; part_refusal(alloc, &rows)?.as_str(), "none");
    Ok(())
}

/// A deal of these parties, and what an account moved in it.
fn moved(alloc: Global, parties: &[Id], account: Id, moves: u32) -> Result<[BookRow; 2], NoMemory> {
    Ok([
        BookRow::Deal {
            deal: DEAL,
            parties: List::from_vec(Vec::from_slice(alloc, parties)?),
            settled: None,
        },
        BookRow::Moves {
            deal: DEAL,
            account,
            moves,
        },
    ])
}

#[test]
fn bad_deals_of_parts(rt: HostRuntime) -> Result<(), Fail> {
    let alloc = rt.alloc();
    let rows = moved(alloc, &[ANN], ANN, 1)?;
    assert_eq!(rt; part_refusal(alloc, &rows)?.as_str(), "1 BadRows 0");
    let rows = moved(alloc, &[ANN, ANN], ANN, 1)?;
    assert_eq!(rt; part_refusal(alloc, &rows)?.as_str(), "1 BadRows 0");
    let rows = moved(alloc, &[ANN, BEN], STRANGER, 1)?;
    assert_eq!(rt; part_refusal(alloc, &rows)?.as_str(), "1 BadRows 1");
    let rows = moved(alloc, &[ANN, BEN], ANN, 4294967295)?;
    assert_eq!(rt; part_refusal(alloc, &rows)?.as_str(), "1 BadRows 1");
    let rows = moved(alloc, &[ANN, BEN], ANN, 4294967294)?;
    assert_eq!(rt; part_refusal(alloc, &rows)?.as_str(), "none");
    Ok(())
}

#[test]
fn known_deal_registers_again(rt: HostRuntime) -> Result<(), Fail> {
    let mut book = under_way(rt.alloc())?;
    assert_eq!(rt; book.register(&DEAL, &[BEN, STRANGER]), Ok(()));
    assert_eq!(rt;
        book.parties(&DEAL)
            .map_or(false, |parties| parties.contains(&ANN)),
        true
    );
    assert_eq!(rt; book.if_abort(&DEAL, &ANN, &coin()), 4);
    Ok(())
}

#[test]
fn first_bad_rows(rt: HostRuntime) -> Result<(), Fail> {
    let most = 9223372036854775807;
    assert_eq!(rt; first_bad_row(&[]), None);
    assert_eq!(rt; first_bad_row(&[(ANN, coin(), most)]), None);
    assert_eq!(rt;
        first_bad_row(&[(ANN, coin(), 1), (BEN, coin(), 0)]),
        Some(1)
    );
    assert_eq!(rt;
        first_bad_row(&[(ANN, coin(), 1), (ANN, coin(), 1)]),
        Some(1)
    );
    assert_eq!(rt;
        first_bad_row(&[(ANN, coin(), most), (BEN, coin(), 1)]),
        Some(1)
    );
    Ok(())
}

#[test]
fn part_settles(rt: HostRuntime) -> Result<(), Fail> {
    let coin = coin();
    let rows = handed_over(rt.alloc())?;
    match Book::part(rt.alloc(), &rows) {
        Err(_) => assert!(rt; false),
        Ok(mut book) => {
            assert_eq!(rt; book.if_commit(&DEAL, &BEN, &coin), 5);
            assert_eq!(rt; book.moves(&DEAL, &ANN), 1);
            assert_eq!(rt; book.settle(&DEAL, Outcome::Commit), Ok(()));
            assert_eq!(rt; book.free(&BEN, &coin), 5);
            assert_eq!(rt; book.free(&ANN, &coin), 0);
        }
    }
    Ok(())
}
