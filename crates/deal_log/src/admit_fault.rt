//! Why a log takes nothing from an envelope.

use act_text::ActFault;
use deal_core::DealFault;
use dh_base::refusal::{hash, write_refusal};
use dh_base::{Id, Refusal, Telling};
use key_ring::EnvFault;
use std::fmt;
use vote_log::LogFault;

/// Why a log takes nothing from an envelope. The numbers go on with those of a log's refusals.
#[derive(Clone, Copy, Debug, PartialEq, Eq)]
pub enum AdmitFault {
    /// The envelope says nothing.
    BadEnvelope { fault: EnvFault },
    /// The message is no act of a log.
    BadAct { fault: ActFault },
    /// The text is no deal's.
    BadDeal { fault: DealFault },
    /// The deal is of another house.
    WrongHouse { named: Id },
    /// The account is not the party that may ask this, the log refuses the record, or an
    /// allocation was refused. It is told as that refusal alone.
    Refused { fault: LogFault },
}

impl From<LogFault> for AdmitFault {
    ghost use Rattle.std.specs.Prelude.{◌≡◌};
    ghost use Rattle.deal_log.specs.declared.admit_fault.AdmitFault.TheVariants.{Refused};

    ghost from_gives = { λ fault given. given ≡ Refused fault };

    fn from(fault: LogFault) -> AdmitFault {
        AdmitFault::Refused { fault }
    }
}

impl Refusal for AdmitFault {
    ghost use Rattle.deal_log.specs.AdmitFaults.{admit_fault_told};

    ghost told = { admit_fault_told };

    fn telling(&self, level: usize) -> Option<Telling> {
        match self {
            AdmitFault::BadEnvelope { fault } => {
                Telling::holding(level, 1, "BadEnvelope", &[], fault)
            }
            AdmitFault::BadAct { fault } => Telling::holding(level, 2, "BadAct", &[], fault),
            AdmitFault::BadDeal { fault } => Telling::holding(level, 3, "BadDeal", &[], fault),
            AdmitFault::WrongHouse { named } => {
                Telling::at(level, 4, "WrongHouse", &[hash("named", *named)])
            }
            AdmitFault::Refused { fault } => fault.telling(level),
        }
    }
}

impl fmt::Display for AdmitFault {
    ghost use Rattle.std.specs.Prelude.{Some};
    ghost use Rattle.dh_base.specs.Refusals.{refusal_text};
    ghost use Rattle.deal_log.specs.AdmitFaults.{admit_fault_told};

    ghost output = { λ fault. Some (refusal_text (admit_fault_told fault)) };

    fn fmt<W: fmt::Write>(&self, f: &mut fmt::Formatter<W>) -> fmt::Result {
        write_refusal(self, f)
    }
}
