//! Holders that are made from their names, and how ids are printed by names.
//!
//! - `holder`: the keys and the account of a name, and what a key of it signs
//! - `directory`: which name an id is printed by
//! - `label`: a name, or an id that has none
#![tactic(auto)]

pub mod directory;
pub mod holder;
pub mod label;

pub use directory::Directory;
pub use holder::Holder;
pub use label::Label;

#[cfg(test)]
mod tests;
