//! What a log decides of a deal.

ghost use Rattle.std.specs.Prelude.{◌≡◌, ◌<◌, ◌^◌, length};
ghost use Rattle.vote_log.specs.Deciding.{outcome_of};

use crate::log_record::LogRecord;
use crate::tally::tally_of;
use dh_base::{Id, Outcome};

/// The outcome of a deal and the place of the record that decided it.
#[derive(Clone, Copy, Debug, PartialEq, Eq)]
pub struct Decision {
    pub outcome: Outcome,
    pub at: u32,
}

/// What the log decides of the deal, and where. It takes no memory.
pub fn outcome(recs: &[LogRecord], deal: &Id) -> Option<Decision>
    requires { length recs.now < 2 ^ 32 }
    ensures { result ≡ outcome_of recs.now deal.now }
{
    tally_of(recs, deal)?.decision
}
