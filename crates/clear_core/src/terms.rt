//! The terms on which a party joins a deal.

use crate::limit::Limit;
use dh_base::List;

/// What a party is willing to give, what it wants to get, and until when it waits.
#[derive(Drop)]
pub struct Terms {
    /// The most that it escrows. Limits for the same asset add up.
    pub gives: List<Limit>,
    /// The least that it wants to be owed, each limit by itself.
    pub gets: List<Limit>,
    pub deadline: u64,
}
