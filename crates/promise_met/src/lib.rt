//! The premises of the promise over runs can be met: a run that meets them all, and in which a deal
//! commits and pays a compliant party; and one with a forged act, in which that party is paid less.
//!
//! - `laws`: the laws that show it.
#![tactic(auto)]

pub mod laws;
