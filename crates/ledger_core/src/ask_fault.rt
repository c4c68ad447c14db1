//! Why a ledger answers no question.

use dh_base::refusal::{hash, write_refusal};
use dh_base::{Id, NoMemory, Refusal, Telling};
use keeper_core::StoreFault;
use std::fmt;

/// Why a ledger answers no question.
#[derive(Clone, Copy, Debug, PartialEq, Eq)]
pub enum AskFault {
    /// The deal is not registered here.
    UnknownDeal,
    /// The account is no party of the deal.
    NotAParty { account: Id },
    /// The keeper failed, a row has not its form, or an allocation was refused.
    Store { fault: StoreFault },
}

impl From<StoreFault> for AskFault {
    ghost use Rattle.std.specs.Prelude.{◌≡◌};
    ghost use Rattle.ledger_core.specs.declared.ask_fault.AskFault.TheVariants.{Store};

    ghost from_gives = { λ fault given. given ≡ Store fault };

    fn from(fault: StoreFault) -> AskFault {
        AskFault::Store { fault }
    }
}

impl From<NoMemory> for AskFault {
    ghost use Rattle.std.specs.Prelude.{◌≡◌};
    ghost use Rattle.keeper_core.specs.declared.store_fault.StoreFault.TheVariants.{NoMemory};
    ghost use Rattle.ledger_core.specs.declared.ask_fault.AskFault.TheVariants.{Store};

    ghost from_gives = { λ _ fault. fault ≡ Store NoMemory };

    fn from(_error: NoMemory) -> AskFault {
        AskFault::from(StoreFault::NoMemory)
    }
}

impl Refusal for AskFault {
    ghost use Rattle.ledger_core.specs.AskFaults.{ask_fault_told};

    ghost told = { ask_fault_told };

    fn telling(&self, level: usize) -> Option<Telling> {
        match self {
            AskFault::UnknownDeal => Telling::at(level, 1, "UnknownDeal", &[]),
            AskFault::NotAParty { account } => {
                Telling::at(level, 2, "NotAParty", &[hash("account", *account)])
            }
            AskFault::Store { fault } => Telling::holding(level, 3, "Store", &[], fault),
        }
    }
}

impl fmt::Display for AskFault {
    ghost use Rattle.std.specs.Prelude.{Some};
    ghost use Rattle.dh_base.specs.Refusals.{refusal_text};
    ghost use Rattle.ledger_core.specs.AskFaults.{ask_fault_told};

    ghost output = { λ fault. Some (refusal_text (ask_fault_told fault)) };

    fn fmt<W: fmt::Write>(&self, f: &mut fmt::Formatter<W>) -> fmt::Result {
        write_refusal(self, f)
    }
}
