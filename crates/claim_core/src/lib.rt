//! Claims: what a ledger is shown of a log. A claim has the records of the log, a chain of links
//! that leads from the set of epoch 0 to the validators of now, and their signatures.
//!
//! - `link`, `claim`: links and claims.
//! - `certificate`, `certifying`: what a claim certifies, or its first broken part.
//! - `walk`: a walk along the records, which makes the heads of their fronts.
//! - `parts`, `reading`, `writing`: the texts of links and claims.
//! - `link_fault`, `claim_fault`, `read_claim_fault`: the refusals.
//! - `laws`: laws of certificates and of the texts.
#![tactic(auto)]

pub mod certificate;
pub mod certifying;
pub mod claim;
pub mod claim_fault;
pub mod laws;
pub mod link;
pub mod link_fault;
mod parts;
pub mod read_claim_fault;
pub mod reading;
mod walk;
pub mod writing;

pub use certificate::Certified;
pub use certifying::{certified, chain_end};
pub use claim::Claim;
pub use claim_fault::ClaimFault;
pub use link::Link;
pub use link_fault::LinkFault;
pub use read_claim_fault::ReadClaimFault;
pub use reading::{read_claim, read_link};
pub use writing::{write_claim, write_link};
