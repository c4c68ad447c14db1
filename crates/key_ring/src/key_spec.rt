//! The seed of a ring.

ghost use Rattle.std.specs.Prelude.{◌≤◌};
ghost use Rattle.key_ring.specs.Rings.{most_keys};

/// What a ring is made from. Who has the seed can sign with every key of the ring.
#[derive(Clone, Copy)]
pub struct KeySpec {
    pub seed: [u8; 32],
    /// I of RFC 8554, by which the hashes of one ring differ from those of others.
    pub ident: [u8; 16],
    /// How many keys the ring has.
    pub size: u16,
    pub ghost some: { 1 ≤ size },
    pub ghost few: { size ≤ most_keys },
}
