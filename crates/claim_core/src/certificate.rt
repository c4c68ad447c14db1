//! What a claim certifies.

use dh_base::Id;

/// The set that vouches for the records of a claim, how many they are, and their head.
#[derive(Clone, Copy, Debug, PartialEq, Eq)]
pub struct Certified {
    /// The id of the set.
    pub set: Id,
    pub epoch: u32,
    pub len: u32,
    pub head: Id,
}
