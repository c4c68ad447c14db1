//! Claims.

use crate::link::Link;
use cert_core::SeatSig;
use dh_base::{Id, List};
use vote_log::LogRecord;

/// What is shown to a ledger: the records of a log, the links that lead from the set of epoch 0 to
/// the set that vouches for them, and signatures of its seats.
#[derive(Drop)]
pub struct Claim {
    pub links: List<Link>,
    pub recs: List<LogRecord>,
    pub head: Id,
    pub sigs: List<SeatSig>,
}
