//! Why bytes are no envelope, or an envelope says nothing.

use dh_base::refusal::{number, write_refusal};
use dh_base::{BaseFault, NoMemory, Refusal, Telling};
use std::alloc::AllocError;
use std::fmt;

/// Why bytes are no envelope, or an envelope says nothing.
#[derive(Clone, Copy, Debug, PartialEq, Eq)]
pub enum EnvFault {
    /// The field that begins there is cut, out of range or left over.
    BadForm { at: u32 },
    /// The ring's text breaks its form there, counted from its own begin.
    BadRing { at: u32 },
    /// The ring has n keys, and none of number q.
    KeyOutside { q: u32, n: u16 },
    /// The signature isn't valid under the key.
    BadSignature,
    /// An allocation was refused.
    NoMemory,
}

impl From<BaseFault> for EnvFault {
    ghost use Rattle.std.specs.Prelude.{◌≡◌};
    ghost use Rattle.key_ring.specs.EnvelopeTexts.{env_fault_of};

    ghost from_gives = { λ base fault. fault ≡ env_fault_of base };

    fn from(fault: BaseFault) -> EnvFault {
        match fault {
            BaseFault::Short { at } | BaseFault::BadName { at } => EnvFault::BadForm { at },
        }
    }
}

impl From<NoMemory> for EnvFault {
    ghost use Rattle.std.specs.Prelude.{◌≡◌};
    ghost use Rattle.key_ring.specs.declared.env_fault.EnvFault.TheVariants.{NoMemory};

    ghost from_gives = { λ _ fault. fault ≡ NoMemory };

    fn from(_error: NoMemory) -> EnvFault {
        EnvFault::NoMemory
    }
}

impl From<AllocError> for EnvFault {
    ghost use Rattle.std.specs.Prelude.{◌≡◌};
    ghost use Rattle.key_ring.specs.declared.env_fault.EnvFault.TheVariants.{NoMemory};

    ghost from_gives = { λ _ fault. fault ≡ NoMemory };

    fn from(_error: AllocError) -> EnvFault {
        EnvFault::NoMemory
    }
}

impl Refusal for EnvFault {
    ghost use Rattle.key_ring.specs.EnvFaults.{env_fault_told};

    ghost told = { env_fault_told };

    fn telling(&self, level: usize) -> Option<Telling> {
        match self {
            EnvFault::BadForm { at } => {
                Telling::at(level, 1, "BadForm", &[number("at", u64::from(*at))])
            }
            EnvFault::BadRing { at } => {
                Telling::at(level, 2, "BadRing", &[number("at", u64::from(*at))])
            }
            EnvFault::KeyOutside { q, n } => Telling::at(
                level,
                3,
                "KeyOutside",
                &[number("q", u64::from(*q)), number("n", u64::from(*n))],
            ),
            EnvFault::BadSignature => Telling::at(level, 4, "BadSignature", &[]),
            EnvFault::NoMemory => Telling::at(level, 5, "NoMemory", &[]),
        }
    }
}

impl fmt::Display for EnvFault {
    ghost use Rattle.std.specs.Prelude.{Some};
    ghost use Rattle.dh_base.specs.Refusals.{refusal_text};
    ghost use Rattle.key_ring.specs.EnvFaults.{env_fault_told};

    ghost output = { λ fault. Some (refusal_text (env_fault_told fault)) };

    fn fmt<W: fmt::Write>(&self, f: &mut fmt::Formatter<W>) -> fmt::Result {
        write_refusal(self, f)
    }
}
