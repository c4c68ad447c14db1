//! Why bytes are no claim or link.

use dh_base::refusal::{number, write_refusal};
use dh_base::{BaseFault, NoMemory, Refusal, Telling};
use key_ring::EnvFault;
use std::alloc::{AllocError, AllocFailed};
use std::fmt;
use vote_log::RecordFault;

/// Why bytes are no claim or link.
#[derive(Clone, Copy, Debug, PartialEq, Eq)]
pub enum ReadClaimFault {
    /// The field that begins there is cut, out of range or left over.
    BadForm { at: u32 },
    /// An allocation was refused.
    NoMemory,
}

impl From<BaseFault> for ReadClaimFault {
    ghost use Rattle.std.specs.Prelude.{◌≡◌};
    ghost use Rattle.claim_core.specs.ClaimReading.{field_fault};

    ghost from_gives = { λ base fault. fault ≡ field_fault base };

    fn from(fault: BaseFault) -> ReadClaimFault {
        match fault {
            BaseFault::Short { at } | BaseFault::BadName { at } => ReadClaimFault::BadForm { at },
        }
    }
}

impl From<RecordFault> for ReadClaimFault {
    ghost use Rattle.std.specs.Prelude.{◌≡◌};
    ghost use Rattle.claim_core.specs.ClaimReading.{record_fault};

    ghost from_gives = { λ base fault. fault ≡ record_fault base };

    fn from(fault: RecordFault) -> ReadClaimFault {
        ReadClaimFault::BadForm { at: fault.at }
    }
}

impl From<NoMemory> for ReadClaimFault {
    ghost use Rattle.std.specs.Prelude.{◌≡◌};
    ghost use Rattle.claim_core.specs.declared.read_claim_fault.ReadClaimFault.TheVariants.{NoMemory};

    ghost from_gives = { λ _ fault. fault ≡ NoMemory };

    fn from(_error: NoMemory) -> ReadClaimFault {
        ReadClaimFault::NoMemory
    }
}

impl From<AllocError> for ReadClaimFault {
    ghost use Rattle.std.specs.Prelude.{◌≡◌};
    ghost use Rattle.claim_core.specs.declared.read_claim_fault.ReadClaimFault.TheVariants.{NoMemory};

    ghost from_gives = { λ _ fault. fault ≡ NoMemory };

    fn from(_error: AllocError) -> ReadClaimFault {
        ReadClaimFault::NoMemory
    }
}

impl<T: Drop> From<AllocFailed<T>> for ReadClaimFault {
    ghost use Rattle.std.specs.Prelude.{◌≡◌};
    ghost use Rattle.claim_core.specs.declared.read_claim_fault.ReadClaimFault.TheVariants.{NoMemory};

    ghost from_gives = { λ _ fault. fault ≡ NoMemory };

    fn from(_error: AllocFailed<T>) -> ReadClaimFault {
        ReadClaimFault::NoMemory
    }
}

impl Refusal for ReadClaimFault {
    ghost use Rattle.claim_core.specs.ClaimFaults.{read_claim_fault_told};

    ghost told = { read_claim_fault_told };

    fn telling(&self, level: usize) -> Option<Telling> {
        match self {
            ReadClaimFault::BadForm { at } => {
                Telling::at(level, 1, "BadForm", &[number("at", u64::from(*at))])
            }
            ReadClaimFault::NoMemory => Telling::at(level, 2, "NoMemory", &[]),
        }
    }
}

impl fmt::Display for ReadClaimFault {
    ghost use Rattle.std.specs.Prelude.{Some};
    ghost use Rattle.dh_base.specs.Refusals.{refusal_text};
    ghost use Rattle.claim_core.specs.ClaimFaults.{read_claim_fault_told};

    ghost output = { λ fault. Some (refusal_text (read_claim_fault_told fault)) };

    fn fmt<W: fmt::Write>(&self, f: &mut fmt::Formatter<W>) -> fmt::Result {
        write_refusal(self, f)
    }
}
