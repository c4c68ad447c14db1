//! Why a ledger is not opened.

use dh_base::refusal::{hash, number, write_refusal};
use dh_base::{Id, NoMemory, Refusal, Telling};
use keeper_core::{KeepFault, StoreFault};
use std::fmt;

/// Why a ledger is not opened.
#[derive(Clone, Copy, Debug, PartialEq, Eq)]
pub enum OpenFault {
    /// The opening row of that place is not good.
    BadOpening { row: u32 },
    /// The keeper has a ledger of another opening, with that identity.
    OtherOpening { kept: Id },
    /// The keeper failed, a row has not its form, or an allocation was refused.
    Store { fault: StoreFault },
}

impl From<StoreFault> for OpenFault {
    ghost use Rattle.std.specs.Prelude.{◌≡◌};
    ghost use Rattle.ledger_core.specs.declared.open_fault.OpenFault.TheVariants.{Store};

    ghost from_gives = { λ fault given. given ≡ Store fault };

    fn from(fault: StoreFault) -> OpenFault {
        OpenFault::Store { fault }
    }
}

impl From<KeepFault> for OpenFault {
    ghost use Rattle.std.specs.Prelude.{◌≡◌};
    ghost use Rattle.keeper_core.specs.StoreFaults.{store_fault_of};
    ghost use Rattle.ledger_core.specs.declared.open_fault.OpenFault.TheVariants.{Store};

    ghost from_gives = { λ fault given. given ≡ Store (store_fault_of fault) };

    fn from(fault: KeepFault) -> OpenFault {
        OpenFault::from(StoreFault::from(fault))
    }
}

impl From<NoMemory> for OpenFault {
    ghost use Rattle.std.specs.Prelude.{◌≡◌};
    ghost use Rattle.keeper_core.specs.declared.store_fault.StoreFault.TheVariants.{NoMemory};
    ghost use Rattle.ledger_core.specs.declared.open_fault.OpenFault.TheVariants.{Store};

    ghost from_gives = { λ _ fault. fault ≡ Store NoMemory };

    fn from(_error: NoMemory) -> OpenFault {
        OpenFault::from(StoreFault::NoMemory)
    }
}

impl Refusal for OpenFault {
    ghost use Rattle.ledger_core.specs.OpenFaults.{open_fault_told};

    ghost told = { open_fault_told };

    fn telling(&self, level: usize) -> Option<Telling> {
        match self {
            OpenFault::BadOpening { row } => {
                Telling::at(level, 1, "BadOpening", &[number("row", u64::from(*row))])
            }
            OpenFault::OtherOpening { kept } => {
                Telling::at(level, 2, "OtherOpening", &[hash("kept", *kept)])
            }
            OpenFault::Store { fault } => Telling::holding(level, 3, "Store", &[], fault),
        }
    }
}

impl fmt::Display for OpenFault {
    ghost use Rattle.std.specs.Prelude.{Some};
    ghost use Rattle.dh_base.specs.Refusals.{refusal_text};
    ghost use Rattle.ledger_core.specs.OpenFaults.{open_fault_told};

    ghost output = { λ fault. Some (refusal_text (open_fault_told fault)) };

    fn fmt<W: fmt::Write>(&self, f: &mut fmt::Formatter<W>) -> fmt::Result {
        write_refusal(self, f)
    }
}
