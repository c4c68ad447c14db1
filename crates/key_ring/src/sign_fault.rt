//! Why a signer gives no envelope.

use dh_base::refusal::{number, write_refusal};
use dh_base::{NoMemory, Refusal, Telling};
use keeper_core::{KeepFault, StoreFault};
use std::alloc::{AllocError, AllocFailed};
use std::fmt;

/// Why a signer gives no envelope.
#[derive(Clone, Copy, Debug, PartialEq, Eq)]
pub enum SignFault {
    /// Of the ring's `size` keys `used` have signed, and the others are held back.
    KeysSpent { used: u16, size: u16 },
    /// The keeper failed, or an allocation was refused.
    Store { fault: StoreFault },
}

impl From<StoreFault> for SignFault {
    ghost use Rattle.std.specs.Prelude.{◌≡◌};
    ghost use Rattle.key_ring.specs.declared.sign_fault.SignFault.TheVariants.{Store};

    ghost from_gives = { λ fault given. given ≡ Store fault };

    fn from(fault: StoreFault) -> SignFault {
        SignFault::Store { fault }
    }
}

impl From<KeepFault> for SignFault {
    ghost use Rattle.std.specs.Prelude.{◌≡◌};
    ghost use Rattle.keeper_core.specs.StoreFaults.{store_fault_of};
    ghost use Rattle.key_ring.specs.declared.sign_fault.SignFault.TheVariants.{Store};

    ghost from_gives = { λ fault given. given ≡ Store (store_fault_of fault) };

    fn from(fault: KeepFault) -> SignFault {
        SignFault::from(StoreFault::from(fault))
    }
}

impl From<NoMemory> for SignFault {
    ghost use Rattle.std.specs.Prelude.{◌≡◌};
    ghost use Rattle.keeper_core.specs.declared.store_fault.StoreFault.TheVariants.{NoMemory};
    ghost use Rattle.key_ring.specs.declared.sign_fault.SignFault.TheVariants.{Store};

    ghost from_gives = { λ _ fault. fault ≡ Store NoMemory };

    fn from(_error: NoMemory) -> SignFault {
        SignFault::from(StoreFault::NoMemory)
    }
}

impl From<AllocError> for SignFault {
    ghost use Rattle.std.specs.Prelude.{◌≡◌};
    ghost use Rattle.keeper_core.specs.declared.store_fault.StoreFault.TheVariants.{NoMemory};
    ghost use Rattle.key_ring.specs.declared.sign_fault.SignFault.TheVariants.{Store};

    ghost from_gives = { λ _ fault. fault ≡ Store NoMemory };

    fn from(_error: AllocError) -> SignFault {
        SignFault::from(StoreFault::NoMemory)
    }
}

impl<T: Drop> From<AllocFailed<T>> for SignFault {
    ghost use Rattle.std.specs.Prelude.{◌≡◌};
    ghost use Rattle.keeper_core.specs.declared.store_fault.StoreFault.TheVariants.{NoMemory};
    ghost use Rattle.key_ring.specs.declared.sign_fault.SignFault.TheVariants.{Store};

    ghost from_gives = { λ _ fault. fault ≡ Store NoMemory };

    fn from(_error: AllocFailed<T>) -> SignFault {
        SignFault::from(StoreFault::NoMemory)
    }
}

impl Refusal for SignFault {
    ghost use Rattle.key_ring.specs.SignFaults.{sign_fault_told};

    ghost told = { sign_fault_told };

    fn telling(&self, level: usize) -> Option<Telling> {
        match self {
            SignFault::KeysSpent { used, size } => Telling::at(
                level,
                1,
                "KeysSpent",
                &[
                    number("used", u64::from(*used)),
                    number("size", u64::from(*size)),
                ],
            ),
            SignFault::Store { fault } => Telling::holding(level, 2, "Store", &[], fault),
        }
    }
}

impl fmt::Display for SignFault {
    ghost use Rattle.std.specs.Prelude.{Some};
    ghost use Rattle.dh_base.specs.Refusals.{refusal_text};
    ghost use Rattle.key_ring.specs.SignFaults.{sign_fault_told};

    ghost output = { λ fault. Some (refusal_text (sign_fault_told fault)) };

    fn fmt<W: fmt::Write>(&self, f: &mut fmt::Formatter<W>) -> fmt::Result {
        write_refusal(self, f)
    }
}
