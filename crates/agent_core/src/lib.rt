//! Agents: the programs that act for a party. An agent joins a deal whose terms it keeps, signs the
//! acts of its plan one after another, hears what ledgers tell of it, and commits only where it has
//! seen that all that it is owed stands there. What it has joined and signed is kept, and what it
//! has heard is not.
//!
//! - `agent`: agents.
//! - `todo`, `heard`: what an agent answers.
//! - `agent_open_fault`, `refused`: why an agent isn't opened, and the keeper that comes back.
//! - `state`, `wanted`: what an agent has in memory, and which text of a deal it signs.
//! - `signing`, `joining`, `hearing`: what its calls do.
//! - `rows`, `loading`: its tables, and opening it over them.
#![tactic(auto)]

pub mod agent;
pub mod agent_open_fault;
pub mod heard;
mod hearing;
mod joining;
mod loading;
pub mod refused;
mod rows;
mod signing;
mod state;
pub mod todo;
mod wanted;

pub use agent::Agent;
pub use agent_open_fault::AgentOpenFault;
pub use heard::Heard;
pub use joined_deals::AgentFault;
pub use refused::AgentRefused;
pub use todo::Todo;
