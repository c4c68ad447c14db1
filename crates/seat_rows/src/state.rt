//! States of seats.

use crate::closing::Closing;
use deal_log::VoteLog;
use key_ring::Signer;

/// What a seat has in memory: its keys with the texts that they have signed, its log, its length
/// where it began, if it has, and for which set it is closed.
#[derive(Drop)]
pub struct SeatState {
    pub signer: Signer,
    pub log: VoteLog,
    pub begun: Option<u32>,
    pub closing: Option<Closing>,
}
