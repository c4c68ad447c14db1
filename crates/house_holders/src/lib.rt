//! Who has keys in a house, and which envelopes forge a signature.
//!
//! - `holders`: the holders that a house declares, with their accounts
//! - `compliant`: the holders that keep to their program, each with its keeper
//! - `forgery`: envelopes that say what no compliant holder has signed
#![tactic(auto)]

pub mod compliant;
pub mod forgery;
pub mod holders;

pub use compliant::{Compliant, compliant_of};
pub use forgery::{Forgery, forgery_of};
pub use holders::{DeclaredHolder, Holders};
