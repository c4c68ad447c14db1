//! Why no record stands at a place of bytes.

use dh_base::BaseFault;

/// The first field of a record that is cut or out of range begins there.
#[derive(Clone, Copy, Debug, PartialEq, Eq)]
pub struct RecordFault {
    pub at: u32,
}

impl From<BaseFault> for RecordFault {
    ghost use Rattle.std.specs.Prelude.{◌≡◌};
    ghost use Rattle.vote_log.specs.RecordTexts.{record_fault_of};

    ghost from_gives = { λ base fault. fault ≡ record_fault_of base };

    fn from(fault: BaseFault) -> RecordFault {
        match fault {
            BaseFault::Short { at } | BaseFault::BadName { at } => RecordFault { at },
        }
    }
}
