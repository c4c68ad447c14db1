//! What a book refuses.

use dh_base::refusal::{ending, hash, number, write_refusal};
use dh_base::{Id, Outcome, Refusal, Telling};
use std::alloc::{AllocError, AllocFailed};
use std::fmt;

/// A refusal of a book's call.
#[derive(Clone, Copy, Debug, PartialEq, Eq)]
pub enum BookFault {
    /// The deal isn't registered.
    UnknownDeal,
    /// The account is no party of the deal.
    NotAParty { account: Id },
    /// The deal has ended so.
    DealSettled { outcome: Outcome },
    /// The turn isn't the number of the transfers that the sender has made in the deal.
    WrongTurn { expected: u32 },
    /// The amount is 0, or sender and receiver are one account.
    ZeroOrSelf,
    /// The sender holds less than the amount.
    Short { held: u64 },
    /// An allocation was refused.
    NoMemory,
}

impl From<AllocError> for BookFault {
    ghost use Rattle.std.specs.Prelude.{◌≡◌};
    ghost use Rattle.escrow_book.specs.declared.fault.BookFault.TheVariants.{NoMemory};

    ghost from_gives = { λ _ fault. fault ≡ NoMemory };

    fn from(_error: AllocError) -> BookFault {
        BookFault::NoMemory
    }
}

impl<T: Drop> From<AllocFailed<T>> for BookFault {
    ghost use Rattle.std.specs.Prelude.{◌≡◌};
    ghost use Rattle.escrow_book.specs.declared.fault.BookFault.TheVariants.{NoMemory};

    ghost from_gives = { λ _ fault. fault ≡ NoMemory };

    fn from(_error: AllocFailed<T>) -> BookFault {
        BookFault::NoMemory
    }
}

impl Refusal for BookFault {
    ghost use Rattle.escrow_book.specs.BookFaults.{book_fault_told};

    ghost told = { book_fault_told };

    fn telling(&self, level: usize) -> Option<Telling> {
        match self {
            BookFault::UnknownDeal => Telling::at(level, 1, "UnknownDeal", &[]),
            BookFault::NotAParty { account } => {
                Telling::at(level, 2, "NotAParty", &[hash("account", *account)])
            }
            BookFault::DealSettled { outcome } => {
                Telling::at(level, 3, "DealSettled", &[ending("outcome", *outcome)])
            }
            BookFault::WrongTurn { expected } => {
                Telling::at(
                    level,
                    4,
                    "WrongTurn",
                    &[number("expected", u64::from(*expected))],
                )
            }
            BookFault::ZeroOrSelf => Telling::at(level, 5, "ZeroOrSelf", &[]),
            BookFault::Short { held } => Telling::at(level, 6, "Short", &[number("held", *held)]),
            BookFault::NoMemory => Telling::at(level, 7, "NoMemory", &[]),
        }
    }
}

impl fmt::Display for BookFault {
    ghost use Rattle.std.specs.Prelude.{Some};
    ghost use Rattle.dh_base.specs.Refusals.{refusal_text};
    ghost use Rattle.escrow_book.specs.BookFaults.{book_fault_told};

    ghost output = { λ fault. Some (refusal_text (book_fault_told fault)) };

    fn fmt<W: fmt::Write>(&self, f: &mut fmt::Formatter<W>) -> fmt::Result {
        write_refusal(self, f)
    }
}
