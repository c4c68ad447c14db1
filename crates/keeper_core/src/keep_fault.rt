//! What a call of a keeper refuses.

use dh_base::{Failed, NoMemory};
use std::fmt;

/// Why a keeper's call has no answer.
#[derive(Clone, Copy, Debug, PartialEq, Eq)]
pub enum KeepFault {
    /// The keeper failed the call, and counted it.
    Failed,
    /// An allocation was refused.
    NoMemory,
}

impl From<Failed> for KeepFault {
    ghost use Rattle.std.specs.Prelude.{◌≡◌};
    ghost use Rattle.keeper_core.specs.declared.keep_fault.KeepFault.TheVariants.{Failed};

    ghost from_gives = { λ _ fault. fault ≡ Failed };

    fn from(_failed: Failed) -> KeepFault {
        KeepFault::Failed
    }
}

impl From<NoMemory> for KeepFault {
    ghost use Rattle.std.specs.Prelude.{◌≡◌};
    ghost use Rattle.keeper_core.specs.declared.keep_fault.KeepFault.TheVariants.{NoMemory};

    ghost from_gives = { λ _ fault. fault ≡ NoMemory };

    fn from(_error: NoMemory) -> KeepFault {
        KeepFault::NoMemory
    }
}

impl fmt::Display for KeepFault {
    ghost use Rattle.std.specs.Prelude.{Some};
    ghost use Rattle.keeper_core.specs.StoreFaults.{keep_fault_text};

    ghost output = { λ fault. Some (keep_fault_text fault) };

    fn fmt<W: fmt::Write>(&self, f: &mut fmt::Formatter<W>) -> fmt::Result {
        match self {
            KeepFault::Failed => f.write_str("failed"),
            KeepFault::NoMemory => f.write_str("no memory"),
        }
    }
}
