//! Why a ledger settles nothing by a claim.

use claim_core::ClaimFault;
use dh_base::refusal::{number, write_refusal};
use dh_base::{Refusal, Telling};
use keeper_core::StoreFault;
use std::fmt;

/// Why a ledger settles nothing by a claim.
#[derive(Clone, Copy, Debug, PartialEq, Eq)]
pub enum ShowFault {
    /// The deal is not registered here.
    UnknownDeal,
    /// The claim certifies nothing.
    BadClaim { fault: ClaimFault },
    /// The records, so many, decide nothing of the deal.
    Undecided { len: u32 },
    /// The keeper failed, a row has not its form, or an allocation was refused.
    Store { fault: StoreFault },
}

impl From<StoreFault> for ShowFault {
    ghost use Rattle.std.specs.Prelude.{◌≡◌};
    ghost use Rattle.ledger_claims.specs.declared.show_fault.ShowFault.TheVariants.{Store};

    ghost from_gives = { λ fault given. given ≡ Store fault };

    fn from(fault: StoreFault) -> ShowFault {
        ShowFault::Store { fault }
    }
}

impl From<ClaimFault> for ShowFault {
    ghost use Rattle.std.specs.Prelude.{◌≡◌};
    ghost use Rattle.ledger_claims.specs.declared.show_fault.ShowFault.TheVariants.{BadClaim};

    ghost from_gives = { λ fault given. given ≡ BadClaim fault };

    fn from(fault: ClaimFault) -> ShowFault {
        ShowFault::BadClaim { fault }
    }
}

impl Refusal for ShowFault {
    ghost use Rattle.ledger_claims.specs.ShowFaults.{show_fault_told};

    ghost told = { show_fault_told };

    fn telling(&self, level: usize) -> Option<Telling> {
        match self {
            ShowFault::UnknownDeal => Telling::at(level, 1, "UnknownDeal", &[]),
            ShowFault::BadClaim { fault } => { Telling::holding(level, 2, "BadClaim", &[], fault) }
            ShowFault::Undecided { len } => {
                Telling::at(level, 3, "Undecided", &[number("len", u64::from(*len))])
            }
            ShowFault::Store { fault } => Telling::holding(level, 4, "Store", &[], fault),
        }
    }
}

impl fmt::Display for ShowFault {
    ghost use Rattle.std.specs.Prelude.{Some};
    ghost use Rattle.dh_base.specs.Refusals.{refusal_text};
    ghost use Rattle.ledger_claims.specs.ShowFaults.{show_fault_told};

    ghost output = { λ fault. Some (refusal_text (show_fault_told fault)) };

    fn fmt<W: fmt::Write>(&self, f: &mut fmt::Formatter<W>) -> fmt::Result {
        write_refusal(self, f)
    }
}
