//! Tests of `dh_base` by its public calls, in a crate of their own: a check with tests proves
//! each function of its crate anew.
//!
//! - `values`: names, ids, refusals, fields, sinks and sources in memory
//! - `adapters`: over the readers and writers of the system
#![tactic(auto)]

#[cfg(test)]
mod adapters;
#[cfg(test)]
mod values;
