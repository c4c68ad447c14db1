//! A signer whose texts a database keeps: what holds of a signer over any keeper, said over the
//! table of a database, so over a file too.
//!
//! - `signing`: loading a signer from a database, and signing a text once the database has it
#![tactic(auto)]

pub mod signing;

pub use signing::{load, sign};
