//! Why a deal breaks a party's terms.

use dh_base::refusal::{called, number, write_refusal};
use dh_base::{Name, Refusal, Telling};
use std::fmt;

/// The first limit of a party's terms that a deal breaks.
#[derive(Clone, Copy)]
pub enum TermFault {
    /// The deal asks more of the party than it gives.
    GivesMore {
        ledger: Name,
        asset: Name,
        asked: u64,
        allowed: u64,
    },
    /// The deal owes the party less than it wants.
    GetsLess {
        ledger: Name,
        asset: Name,
        offered: u64,
        wanted: u64,
    },
}

impl Refusal for TermFault {
    ghost use Rattle.clear_core.specs.TermFaults.{term_fault_told};

    ghost told = { term_fault_told };

    fn telling(&self, level: usize) -> Option<Telling> {
        match self {
            TermFault::GivesMore {
                ledger,
                asset,
                asked,
                allowed,
            } => Telling::at(
                level,
                1,
                "GivesMore",
                &[
                    called("ledger", *ledger),
                    called("asset", *asset),
                    number("asked", *asked),
                    number("allowed", *allowed),
                ],
            ),
            TermFault::GetsLess {
                ledger,
                asset,
                offered,
                wanted,
            } => Telling::at(
                level,
                2,
                "GetsLess",
                &[
                    called("ledger", *ledger),
                    called("asset", *asset),
                    number("offered", *offered),
                    number("wanted", *wanted),
                ],
            ),
        }
    }
}

impl fmt::Display for TermFault {
    ghost use Rattle.std.specs.Prelude.{Some};
    ghost use Rattle.dh_base.specs.Refusals.{refusal_text};
    ghost use Rattle.clear_core.specs.TermFaults.{term_fault_told};

    ghost output = { λ fault. Some (refusal_text (term_fault_told fault)) };

    fn fmt<W: fmt::Write>(&self, f: &mut fmt::Formatter<W>) -> fmt::Result {
        write_refusal(self, f)
    }
}
