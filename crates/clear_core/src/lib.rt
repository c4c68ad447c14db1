//! What a deal takes from each party and what it gives: the least escrow, what the deal owes, and
//! the turns of transfers.
//!
//! - `clearing`: need, due and turns.
//! - `flow`: what a step moves for a party.
//! - `pair`: the assets on ledgers that a deal moves.
//! - `planning`, `plan_act`: what a party does in a deal.
//! - `checking`, `terms`, `limit`, `term_fault`: whether a deal keeps a party's terms.
//! - `summary`: what a deal's clearing tells, as text.
//! - `laws`: the needs are the least holdings that fund the steps, and together what is due; plans
//!   escrow exactly the needs.
#![tactic(auto)]

pub mod checking;
pub mod clearing;
mod flow;
pub mod laws;
pub mod limit;
pub mod pair;
pub mod plan_act;
pub mod planning;
pub mod summary;
pub mod term_fault;
pub mod terms;

pub use checking::check_terms;
pub use clearing::{due, need, turns};
pub use limit::Limit;
pub use pair::{Pair, pairs};
pub use plan_act::PlanAct;
pub use planning::plan;
pub use summary::clearing_text;
pub use term_fault::TermFault;
pub use terms::Terms;
