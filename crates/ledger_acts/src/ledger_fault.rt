//! Why a ledger refuses an act.

use act_text::ActFault;
use deal_core::DealFault;
use dh_base::refusal::{called, ending, hash, number, write_refusal};
use dh_base::{Id, Name, NoMemory, Outcome, Refusal, Telling};
use escrow_book::BookFault;
use keeper_core::{KeepFault, StoreFault};
use key_ring::EnvFault;
use std::fmt;

/// Why a ledger refuses an act.
#[derive(Clone, Copy)]
pub enum LedgerFault {
    /// The envelope says nothing.
    BadEnvelope { fault: EnvFault },
    /// The message is no act of a ledger.
    BadAct { fault: ActFault },
    /// The key has signed another act that is accepted here: the one of which this is the digest.
    KeyReused { kept: Id },
    /// The act names another ledger.
    WrongLedger { named: Name },
    /// The text is no deal's.
    BadDeal { fault: DealFault },
    /// The act names another house.
    WrongHouse { named: Id },
    /// The deal is not registered here.
    UnknownDeal,
    /// The account is no party of the deal.
    NotAParty { account: Id },
    /// The account has registered so many deals here that are not settled.
    DealsFull { held: u32 },
    /// The deal has ended here.
    DealSettled { outcome: Outcome },
    /// The next transfer of the sender is of that turn.
    WrongTurn { expected: u32 },
    /// The amount is 0, or sender and receiver are one.
    ZeroOrSelf,
    /// The amount is more than is held.
    Short { held: u64 },
    /// So many acts are accepted here.
    LedgerFull { acts: u32 },
    /// The keeper failed, a row has not its form, or an allocation was refused.
    Store { fault: StoreFault },
}

impl From<StoreFault> for LedgerFault {
    ghost use Rattle.std.specs.Prelude.{◌≡◌};
    ghost use Rattle.ledger_acts.specs.declared.ledger_fault.LedgerFault.TheVariants.{Store};

    ghost from_gives = { λ fault given. given ≡ Store fault };

    fn from(fault: StoreFault) -> LedgerFault {
        LedgerFault::Store { fault }
    }
}

impl From<KeepFault> for LedgerFault {
    ghost use Rattle.std.specs.Prelude.{◌≡◌};
    ghost use Rattle.keeper_core.specs.StoreFaults.{store_fault_of};
    ghost use Rattle.ledger_acts.specs.declared.ledger_fault.LedgerFault.TheVariants.{Store};

    ghost from_gives = { λ fault given. given ≡ Store (store_fault_of fault) };

    fn from(fault: KeepFault) -> LedgerFault {
        LedgerFault::from(StoreFault::from(fault))
    }
}

impl From<NoMemory> for LedgerFault {
    ghost use Rattle.std.specs.Prelude.{◌≡◌};
    ghost use Rattle.keeper_core.specs.declared.store_fault.StoreFault.TheVariants.{NoMemory};
    ghost use Rattle.ledger_acts.specs.declared.ledger_fault.LedgerFault.TheVariants.{Store};

    ghost from_gives = { λ _ fault. fault ≡ Store NoMemory };

    fn from(_error: NoMemory) -> LedgerFault {
        LedgerFault::from(StoreFault::NoMemory)
    }
}

impl From<ActFault> for LedgerFault {
    ghost use Rattle.std.specs.Prelude.{◌≡◌};
    ghost use Rattle.ledger_acts.specs.LedgerFaults.{ledger_fault_of_act};

    ghost from_gives = { λ fault given. given ≡ ledger_fault_of_act fault };

    fn from(fault: ActFault) -> LedgerFault {
        match fault {
            ActFault::NoMemory => LedgerFault::from(NoMemory),
            fault => LedgerFault::BadAct { fault },
        }
    }
}

impl From<DealFault> for LedgerFault {
    ghost use Rattle.std.specs.Prelude.{◌≡◌};
    ghost use Rattle.ledger_acts.specs.LedgerFaults.{ledger_fault_of_deal};

    ghost from_gives = { λ fault given. given ≡ ledger_fault_of_deal fault };

    fn from(fault: DealFault) -> LedgerFault {
        match fault {
            DealFault::NoMemory => LedgerFault::from(NoMemory),
            fault => LedgerFault::BadDeal { fault },
        }
    }
}

impl From<BookFault> for LedgerFault {
    ghost use Rattle.std.specs.Prelude.{◌≡◌};
    ghost use Rattle.ledger_acts.specs.LedgerFaults.{ledger_fault_of};

    ghost from_gives = { λ fault given. given ≡ ledger_fault_of fault };

    fn from(fault: BookFault) -> LedgerFault {
        match fault {
            BookFault::UnknownDeal => LedgerFault::UnknownDeal,
            BookFault::NotAParty { account } => LedgerFault::NotAParty { account },
            BookFault::DealSettled { outcome } => LedgerFault::DealSettled { outcome },
            BookFault::WrongTurn { expected } => LedgerFault::WrongTurn { expected },
            BookFault::ZeroOrSelf => LedgerFault::ZeroOrSelf,
            BookFault::Short { held } => LedgerFault::Short { held },
            BookFault::NoMemory => LedgerFault::from(StoreFault::NoMemory),
        }
    }
}

impl Refusal for LedgerFault {
    ghost use Rattle.ledger_acts.specs.LedgerFaults.{ledger_fault_told};

    ghost told = { ledger_fault_told };

    fn telling(&self, level: usize) -> Option<Telling> {
        match self {
            LedgerFault::BadEnvelope { fault } => {
                Telling::holding(level, 1, "BadEnvelope", &[], fault)
            }
            LedgerFault::BadAct { fault } => Telling::holding(level, 2, "BadAct", &[], fault),
            LedgerFault::KeyReused { kept } => {
                Telling::at(level, 3, "KeyReused", &[hash("kept", *kept)])
            }
            LedgerFault::WrongLedger { named } => {
                Telling::at(level, 4, "WrongLedger", &[called("named", *named)])
            }
            LedgerFault::BadDeal { fault } => Telling::holding(level, 5, "BadDeal", &[], fault),
            LedgerFault::WrongHouse { named } => {
                Telling::at(level, 6, "WrongHouse", &[hash("named", *named)])
            }
            LedgerFault::UnknownDeal => Telling::at(level, 7, "UnknownDeal", &[]),
            LedgerFault::NotAParty { account } => {
                Telling::at(level, 8, "NotAParty", &[hash("account", *account)])
            }
            LedgerFault::DealsFull { held } => {
                Telling::at(level, 9, "DealsFull", &[number("held", u64::from(*held))])
            }
            LedgerFault::DealSettled { outcome } => {
                Telling::at(level, 10, "DealSettled", &[ending("outcome", *outcome)])
            }
            LedgerFault::WrongTurn { expected } => Telling::at(
                level,
                11,
                "WrongTurn",
                &[number("expected", u64::from(*expected))],
            ),
            LedgerFault::ZeroOrSelf => Telling::at(level, 12, "ZeroOrSelf", &[]),
            LedgerFault::Short { held } => {
                Telling::at(level, 13, "Short", &[number("held", *held)])
            }
            LedgerFault::LedgerFull { acts } => {
                Telling::at(level, 14, "LedgerFull", &[number("acts", u64::from(*acts))])
            }
            LedgerFault::Store { fault } => Telling::holding(level, 15, "Store", &[], fault),
        }
    }
}

impl fmt::Display for LedgerFault {
    ghost use Rattle.std.specs.Prelude.{Some};
    ghost use Rattle.dh_base.specs.Refusals.{refusal_text};
    ghost use Rattle.ledger_acts.specs.LedgerFaults.{ledger_fault_told};

    ghost output = { λ fault. Some (refusal_text (ledger_fault_told fault)) };

    fn fmt<W: fmt::Write>(&self, f: &mut fmt::Formatter<W>) -> fmt::Result {
        write_refusal(self, f)
    }
}
