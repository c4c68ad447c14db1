//! Why an agent refuses a call.

use clear_core::TermFault;
use deal_core::DealFault;
use dh_base::refusal::{called, ending, hash, number, write_refusal};
use dh_base::{Id, Name, NoMemory, Outcome, Refusal, Telling};
use keeper_core::{KeepFault, StoreFault};
use std::alloc::{AllocError, AllocFailed};
use std::fmt;

/// Why an agent refuses a call.
#[derive(Clone, Copy)]
pub enum AgentFault {
    /// The deal is not joined.
    NotJoined,
    /// The deal was joined before.
    JoinedAlready,
    /// The text is no deal's.
    BadDeal {
        fault: DealFault,
    },
    /// The deal or the statement is of the house `named`.
    OtherHouse {
        named: Id,
    },
    /// The account is no party of the deal.
    NotAParty,
    /// The deal breaks a limit of the terms.
    Terms {
        fault: TermFault,
    },
    /// The deal may want `needed` keys, and but `left` are neither used nor held for other deals.
    KeysShort {
        left: u16,
        needed: u16,
    },
    /// A vote of the deal is signed, so no act of its plan is signed any more.
    Voted,
    /// But `issued` acts of the plan are signed.
    NotIssued {
        issued: u16,
    },
    /// An abort of the deal is signed.
    AbortSigned,
    /// So many acts of the plan are not signed yet.
    ActsOpen {
        left: u16,
    },
    /// The ledger has settled the deal.
    Settled {
        ledger: Name,
        outcome: Outcome,
    },
    /// The ledger lists `seen` of the asset, of which `due` is due.
    NotValidated {
        ledger: Name,
        asset: Name,
        seen: u64,
        due: u64,
    },
    /// The ledger counts `seen` of the party's `own` transfers.
    MovesOpen {
        ledger: Name,
        seen: u32,
        own: u32,
    },
    /// The statement is on another party.
    NotMine {
        party: Id,
    },
    /// The deal has no step on the ledger.
    NotOfDeal {
        ledger: Name,
    },
    /// The keeper failed, or an allocation was refused.
    Store {
        fault: StoreFault,
    },
}

impl From<StoreFault> for AgentFault {
    ghost use Rattle.std.specs.Prelude.{◌≡◌};
    ghost use Rattle.joined_deals.specs.declared.agent_fault.AgentFault.TheVariants.{Store};

    ghost from_gives = { λ fault given. given ≡ Store fault };

    fn from(fault: StoreFault) -> AgentFault {
        AgentFault::Store { fault }
    }
}

impl From<KeepFault> for AgentFault {
    ghost use Rattle.std.specs.Prelude.{◌≡◌};
    ghost use Rattle.keeper_core.specs.StoreFaults.{store_fault_of};
    ghost use Rattle.joined_deals.specs.declared.agent_fault.AgentFault.TheVariants.{Store};

    ghost from_gives = { λ fault given. given ≡ Store (store_fault_of fault) };

    fn from(fault: KeepFault) -> AgentFault {
        AgentFault::from(StoreFault::from(fault))
    }
}

impl From<NoMemory> for AgentFault {
    ghost use Rattle.std.specs.Prelude.{◌≡◌};
    ghost use Rattle.keeper_core.specs.declared.store_fault.StoreFault.TheVariants.{NoMemory};
    ghost use Rattle.joined_deals.specs.declared.agent_fault.AgentFault.TheVariants.{Store};

    ghost from_gives = { λ _ fault. fault ≡ Store NoMemory };

    fn from(_error: NoMemory) -> AgentFault {
        AgentFault::from(StoreFault::NoMemory)
    }
}

impl From<AllocError> for AgentFault {
    ghost use Rattle.std.specs.Prelude.{◌≡◌};
    ghost use Rattle.keeper_core.specs.declared.store_fault.StoreFault.TheVariants.{NoMemory};
    ghost use Rattle.joined_deals.specs.declared.agent_fault.AgentFault.TheVariants.{Store};

    ghost from_gives = { λ _ fault. fault ≡ Store NoMemory };

    fn from(_error: AllocError) -> AgentFault {
        AgentFault::from(StoreFault::NoMemory)
    }
}

impl<T: Drop> From<AllocFailed<T>> for AgentFault {
    ghost use Rattle.std.specs.Prelude.{◌≡◌};
    ghost use Rattle.keeper_core.specs.declared.store_fault.StoreFault.TheVariants.{NoMemory};
    ghost use Rattle.joined_deals.specs.declared.agent_fault.AgentFault.TheVariants.{Store};

    ghost from_gives = { λ _ fault. fault ≡ Store NoMemory };

    fn from(_error: AllocFailed<T>) -> AgentFault {
        AgentFault::from(StoreFault::NoMemory)
    }
}

impl From<DealFault> for AgentFault {
    ghost use Rattle.std.specs.Prelude.{◌≡◌};
    ghost use Rattle.joined_deals.specs.AgentFaults.{agent_fault_of_deal};

    ghost from_gives = { λ fault given. given ≡ agent_fault_of_deal fault };

    fn from(fault: DealFault) -> AgentFault {
        match fault {
            DealFault::NoMemory => AgentFault::from(NoMemory),
            fault => AgentFault::BadDeal { fault },
        }
    }
}

impl From<TermFault> for AgentFault {
    ghost use Rattle.std.specs.Prelude.{◌≡◌};
    ghost use Rattle.joined_deals.specs.declared.agent_fault.AgentFault.TheVariants.{Terms};

    ghost from_gives = { λ fault given. given ≡ Terms fault };

    fn from(fault: TermFault) -> AgentFault {
        AgentFault::Terms { fault }
    }
}

impl Refusal for AgentFault {
    ghost use Rattle.joined_deals.specs.AgentFaults.{agent_fault_told};

    ghost told = { agent_fault_told };

    fn telling(&self, level: usize) -> Option<Telling> {
        match self {
            AgentFault::NotJoined => Telling::at(level, 1, "NotJoined", &[]),
            AgentFault::JoinedAlready => Telling::at(level, 2, "JoinedAlready", &[]),
            AgentFault::BadDeal { fault } => Telling::holding(level, 3, "BadDeal", &[], fault),
            AgentFault::OtherHouse { named } => {
                Telling::at(level, 4, "OtherHouse", &[hash("named", *named)])
            }
            AgentFault::NotAParty => Telling::at(level, 5, "NotAParty", &[]),
            AgentFault::Terms { fault } => Telling::holding(level, 6, "Terms", &[], fault),
            AgentFault::KeysShort { left, needed } => Telling::at(
                level,
                7,
                "KeysShort",
                &[
                    number("left", u64::from(*left)),
                    number("needed", u64::from(*needed)),
                ],
            ),
            AgentFault::Voted => Telling::at(level, 8, "Voted", &[]),
            AgentFault::NotIssued { issued } => {
                Telling::at(
                    level,
                    9,
                    "NotIssued",
                    &[number("issued", u64::from(*issued))],
                )
            }
            AgentFault::AbortSigned => Telling::at(level, 10, "AbortSigned", &[]),
            AgentFault::ActsOpen { left } => {
                Telling::at(level, 11, "ActsOpen", &[number("left", u64::from(*left))])
            }
            AgentFault::Settled { ledger, outcome } => Telling::at(
                level,
                12,
                "Settled",
                &[called("ledger", *ledger), ending("outcome", *outcome)],
            ),
            AgentFault::NotValidated {
                ledger,
                asset,
                seen,
                due,
            } => Telling::at(
                level,
                13,
                "NotValidated",
                &[
                    called("ledger", *ledger),
                    called("asset", *asset),
                    number("seen", *seen),
                    number("due", *due),
                ],
            ),
            AgentFault::MovesOpen { ledger, seen, own } => Telling::at(
                level,
                14,
                "MovesOpen",
                &[
                    called("ledger", *ledger),
                    number("seen", u64::from(*seen)),
                    number("own", u64::from(*own)),
                ],
            ),
            AgentFault::NotMine { party } => {
                Telling::at(level, 15, "NotMine", &[hash("party", *party)])
            }
            AgentFault::NotOfDeal { ledger } => {
                Telling::at(level, 16, "NotOfDeal", &[called("ledger", *ledger)])
            }
            AgentFault::Store { fault } => Telling::holding(level, 17, "Store", &[], fault),
        }
    }
}

impl fmt::Display for AgentFault {
    ghost use Rattle.std.specs.Prelude.{Some};
    ghost use Rattle.dh_base.specs.Refusals.{refusal_text};
    ghost use Rattle.joined_deals.specs.AgentFaults.{agent_fault_told};

    ghost output = { λ fault. Some (refusal_text (agent_fault_told fault)) };

    fn fmt<W: fmt::Write>(&self, f: &mut fmt::Formatter<W>) -> fmt::Result {
        write_refusal(self, f)
    }
}
