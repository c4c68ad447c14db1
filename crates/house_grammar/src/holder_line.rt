//! What a declaration of a party or a seat says of its holder.

/// Whether a holder keeps to its program. A deviating holder may do anything.
#[derive(Clone, Copy, Debug, PartialEq, Eq)]
pub enum Conduct {
    Honest,
    Deviant,
}

/// How many one-time keys a holder has.
#[derive(Clone, Copy, Debug, PartialEq, Eq)]
pub enum KeySize {
    /// A ring of so many keys. The number is none where it exceeds 32 bits.
    Ring(Option<u32>),
    /// A tree of 2^5 keys.
    TreeOfHeight5,
    /// A tree of 2^10 keys.
    TreeOfHeight10,
}
