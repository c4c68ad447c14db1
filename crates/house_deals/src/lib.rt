//! The deals that a house declares: their parties, their steps by the parties' indices, which step
//! may stand behind others, and whether a deal is whole.
//!
//! - `names`: names in lists.
//! - `deal_steps`: the parties and steps of a deal.
//! - `connected`: whether its parties reach each other.
//! - `laws`: what connected means.
#![tactic(auto)]

pub mod connected;
pub mod deal_steps;
pub mod laws;
pub mod names;

pub use connected::is_connected;
pub use deal_steps::{are_whole, is_good_step, members, steps_among};
pub use names::{are_different, is_among};
