//! Tests of `signer_sql` by its public calls, in a crate of their own: a check with tests proves
//! each function of its crate anew.
//!
//! - `killed`: a writer that is killed
//! - `signers`: signers over a database
#![tactic(auto)]

#[cfg(test)]
mod folders;
#[cfg(test)]
mod killed;
#[cfg(test)]
mod signers;
