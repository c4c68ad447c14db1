//! What the lines of a house script build: envelopes that anybody forges, and what the names of the
//! second group are bound to.
//!
//! - `bindings`: what names are bound to
//! - `message`: the messages of forged envelopes
//! - `flipping`: envelopes with a changed signature
//! - `building`: what a line builds, or which rule it breaks
#![tactic(auto)]

pub mod bindings;
pub mod building;
pub mod flipping;
mod message;

pub use bindings::{Binding, Bindings, Bound};
pub use building::{BuildHalt, build};
