//! Why a plain ledger refuses an act.

use dh_base::refusal::{called, ending, number, write_refusal};
use dh_base::{Name, Outcome, Refusal, Telling};
use std::fmt;

/// Why a plain ledger refuses an act. The numbers are those of a ledger's refusals.
#[derive(Clone, Copy)]
pub enum ActRefusal {
    /// The deal isn't registered on the ledger.
    UnknownDeal,
    /// The party is none of the deal.
    NotAParty { account: Name },
    /// The deal is settled.
    DealSettled { outcome: Outcome },
    /// The sender's next transfer has another turn.
    WrongTurn { expected: u32 },
    /// The amount is 0, or sender and receiver are one.
    ZeroOrSelf,
    /// Less than the amount is held.
    Short { held: u64 },
}

impl Refusal for ActRefusal {
    ghost use Rattle.plain_core.specs.Replies.{act_refusal_told};

    ghost told = { act_refusal_told };

    fn telling(&self, level: usize) -> Option<Telling> {
        match self {
            ActRefusal::UnknownDeal => Telling::at(level, 7, "UnknownDeal", &[]),
            ActRefusal::NotAParty { account } => {
                Telling::at(level, 8, "NotAParty", &[called("account", *account)])
            }
            ActRefusal::DealSettled { outcome } => {
                Telling::at(level, 10, "DealSettled", &[ending("outcome", *outcome)])
            }
            ActRefusal::WrongTurn { expected } => {
                Telling::at(
                    level,
                    11,
                    "WrongTurn",
                    &[number("expected", u64::from(*expected))],
                )
            }
            ActRefusal::ZeroOrSelf => Telling::at(level, 12, "ZeroOrSelf", &[]),
            ActRefusal::Short { held } => Telling::at(level, 13, "Short", &[number("held", *held)]),
        }
    }
}

impl fmt::Display for ActRefusal {
    ghost use Rattle.std.specs.Prelude.{Some};
    ghost use Rattle.dh_base.specs.Refusals.{refusal_text};
    ghost use Rattle.plain_core.specs.Replies.{act_refusal_told};

    ghost output = { λ refusal. Some (refusal_text (act_refusal_told refusal)) };

    fn fmt<W: fmt::Write>(&self, f: &mut fmt::Formatter<W>) -> fmt::Result {
        write_refusal(self, f)
    }
}
