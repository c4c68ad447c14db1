//! One-time signatures: LM-OTS of RFC 8554 with the parameters LMOTS_SHA256_N32_W4, by which each
//! key signs one message. Nothing here takes memory.
//!
//! - `key_generation`, `signing`, `verifying`: a public key, the signature of a message, and whether
//!   a signature is valid.
//! - `ots_sig`, `sig_fault`: a signature and its bytes, and why bytes are none.
//! - `walks`, `side_by_side`: walks on all chains of a key, eight chains at once.
//! - `chain`, `coefficients`, `hashing`, `key`, `part`: what these stand on.
//! - `laws`: laws of signatures.
#![tactic(auto)]

mod chain;
mod coefficients;
mod hashing;
mod key;
mod key_generation;
pub mod laws;
pub mod ots_sig;
mod part;
mod side_by_side;
pub mod sig_fault;
mod signing;
mod verifying;
mod walks;

pub use key_generation::keygen;
pub use ots_sig::{OtsSig, SIG_LEN, read_sig, write_sig};
pub use sig_fault::SigFault;
pub use signing::sign;
pub use verifying::verify;

#[cfg(test)]
mod tests;
