//! What a call over kept rows refuses.

ghost use Rattle.std.specs.Prelude.{◌≡◌};

use crate::keep_fault::KeepFault;
use dh_base::refusal::{hash, number, write_refusal};
use dh_base::{Id, NoMemory, Refusal, Telling, digest};
use std::alloc::AllocFailed;
use std::fmt;

/// What a call refuses that reads and commits rows of a keeper.
#[derive(Clone, Copy, Debug, PartialEq, Eq)]
pub enum StoreFault {
    /// The keeper failed a call, and counted it.
    Keeper,
    /// A row of the table that was read has not its form. `key` is the digest of the row's key.
    BadRow { tab: u8, key: Id },
    /// An allocation was refused.
    NoMemory,
}

impl StoreFault {
    ghost use Rattle.keeper_core.specs.StoreFaults.{bad_row_of};

    /// The fault that names the row of a table with this key.
    pub fn bad_row(tab: u8, key: &[u8]) -> StoreFault
        ensures { result ≡ bad_row_of tab key.now }
    {
        StoreFault::BadRow {
            tab,
            key: digest(key),
        }
    }
}

impl From<KeepFault> for StoreFault {
    ghost use Rattle.std.specs.Prelude.{◌≡◌};
    ghost use Rattle.keeper_core.specs.StoreFaults.{store_fault_of};

    ghost from_gives = { λ fault given. given ≡ store_fault_of fault };

    fn from(fault: KeepFault) -> StoreFault {
        match fault {
            KeepFault::Failed => StoreFault::Keeper,
            KeepFault::NoMemory => StoreFault::NoMemory,
        }
    }
}

impl From<NoMemory> for StoreFault {
    ghost use Rattle.std.specs.Prelude.{◌≡◌};
    ghost use Rattle.keeper_core.specs.declared.store_fault.StoreFault.TheVariants.{NoMemory};

    ghost from_gives = { λ _ fault. fault ≡ NoMemory };

    fn from(_error: NoMemory) -> StoreFault {
        StoreFault::NoMemory
    }
}

impl<T: Drop> From<AllocFailed<T>> for StoreFault {
    ghost use Rattle.std.specs.Prelude.{◌≡◌};
    ghost use Rattle.keeper_core.specs.declared.store_fault.StoreFault.TheVariants.{NoMemory};

    ghost from_gives = { λ _ fault. fault ≡ NoMemory };

    fn from(_error: AllocFailed<T>) -> StoreFault {
        StoreFault::NoMemory
    }
}

impl Refusal for StoreFault {
    ghost use Rattle.keeper_core.specs.StoreFaults.{store_fault_told};

    ghost told = { store_fault_told };

    fn telling(&self, level: usize) -> Option<Telling> {
        match self {
            StoreFault::Keeper => Telling::at(level, 1, "Keeper", &[]),
            StoreFault::BadRow { tab, key } => Telling::at(
                level,
                2,
                "BadRow",
                &[number("tab", u64::from(*tab)), hash("key", *key)],
            ),
            StoreFault::NoMemory => Telling::at(level, 3, "NoMemory", &[]),
        }
    }
}

impl fmt::Display for StoreFault {
    ghost use Rattle.std.specs.Prelude.{Some};
    ghost use Rattle.dh_base.specs.Refusals.{refusal_text};
    ghost use Rattle.keeper_core.specs.StoreFaults.{store_fault_told};

    ghost output = { λ fault. Some (refusal_text (store_fault_told fault)) };

    fn fmt<W: fmt::Write>(&self, f: &mut fmt::Formatter<W>) -> fmt::Result {
        write_refusal(self, f)
    }
}
