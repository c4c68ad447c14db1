//! What an agent has to do next.

use clear_core::PlanAct;
use key_ring::Envelope;

/// What the plan of a deal has next.
#[derive(Drop)]
pub enum Todo {
    /// The act, in an envelope.
    Give { act: PlanAct, env: Envelope },
    /// All acts of the plan are signed.
    Nothing,
}
