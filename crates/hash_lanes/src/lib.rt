//! SHA-256 of eight texts side by side, one in each lane of `std::simd`'s vectors. The texts have
//! 55 bytes, which fill one block with their padding, and begin with the same 20. All lanes take
//! the same steps, whatever stands in them, and nothing here takes memory.
//!
//! - `stem`: the 20 bytes, and the hash of each text that begins with them.
//! - `values`: the values of 32 bytes with which the texts end, and which their hashes are.
//! - `compression`, `word`, `constants`: what these stand on.
#![tactic(auto)]

mod compression;
mod constants;
mod stem;
mod values;
mod word;

pub use stem::Stem;
pub use values::{from_bytes, to_bytes};

#[cfg(test)]
mod tests;
