//! Rings of one-time keys, and signed envelopes. A ring is the list of an account's public keys,
//! and the account is the hash of the ring's text. An envelope carries a ring, the number of a key
//! of it, a message and the signature of the message by that key: so it says the message under the
//! account.
//!
//! - `key_spec`: the seed of a ring.
//! - `ring`: the text of a ring, and its account.
//! - `envelope`, `writing`: an envelope, making one, and writing its text.
//! - `reading`: reading envelopes.
//! - `said`: what an envelope says.
//! - `signer`: the keys of a ring, of which each signs one text, with what is kept of that.
//! - `env_fault`, `sign_fault`: the refusals.
//! - `laws`: laws of the texts, and of what is made.
#![tactic(auto)]

pub mod env_fault;
pub mod envelope;
pub mod key_spec;
pub mod laws;
pub mod reading;
pub mod ring;
pub mod said;
pub mod sign_fault;
pub mod signer;
mod used_texts;
pub mod writing;

pub use env_fault::EnvFault;
pub use envelope::Envelope;
pub use key_spec::KeySpec;
pub use reading::{EnvelopeAt, envelope_at, read_envelope};
pub use ring::{account_of, make_ring};
pub use said::{Said, check};
pub use sign_fault::SignFault;
pub use signer::Signer;
pub use writing::{make_envelope, write_envelope};
