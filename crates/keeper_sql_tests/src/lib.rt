//! Tests of `keeper_sql` by its public calls, in a crate of their own: a check with tests proves
//! each function of its crate anew.
//!
//! - `stores`: small batches and databases; below it, batches, adopted databases and files
#![tactic(auto)]

#[cfg(test)]
mod stores;
