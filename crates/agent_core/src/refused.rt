//! Keepers that come back.

use crate::agent_open_fault::AgentOpenFault;

/// A keeper that comes back, and why no agent is opened over it.
#[derive(Drop)]
pub struct AgentRefused<K> {
    pub keeper: K,
    pub fault: AgentOpenFault,
}
