//! Premises without which the promise over runs is false: runs that meet all premises but one.
//!
//! - `laws`: the laws that show it.
#![tactic(auto)]

pub mod laws;
