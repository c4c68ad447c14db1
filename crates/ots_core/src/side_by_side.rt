//! Eight chains side by side, each on its own way.

ghost use Rattle.std.specs.Prelude.{◌≡◌, ℕ, [], ◌<◌, ◌≤◌, ◌+◌, ◌*◌, ◌%◌, ◌^◌, slice_index, slice_index_or};
ghost use Rattle.ots_core.specs.Chains as specs;
ghost use Rattle.ots_core.specs.Walks.{IsKey};

use crate::key::Key;
use hash_lanes::{from_bytes, to_bytes};
use std::simd::u32x8;

/// Where eight chains begin, and where they end. A place on a chain is the chain's number times
/// 256, and the number of the step.
#[derive(Clone, Copy, Drop)]
pub(crate) struct Eight {
    pub(crate) from: [u32; 8],
    pub(crate) to: [u32; 8],
}

/// The places after so many steps.
#[inline(always)]
fn steps_on(from: u32x8, steps: u32) -> u32x8
    ensures { (j : ℕ) → j < 8 → slice_index result j ≡ (slice_index from j + steps) % 2 ^ 32 }
{
    from + u32x8::splat(steps)
}

/// The values at the ends of those chains that have no more steps than that.
pub(crate) fn walk_eight(
    key: &Key,
    eight: &Eight,
    steps: u16,
    start: &[[u8; 32]; 8],
) -> [[u8; 32]; 8]
    requires key { IsKey key.now }
    requires steps { steps ≤ 15 }
    ensures { (j i a b : ℕ) → j < 8 → i < 2 ^ 16 → a ≤ b → b ≤ a + steps → b ≤ 256
        → slice_index eight.now.from j ≡ 256 * i + a → slice_index eight.now.to j ≡ 256 * i + b
        → slice_index_or result j []
        ≡ specs.chain key.now.ident key.now.q i a b (slice_index_or start.now j []) }
{
    let from = u32x8::from_array(eight.from);
    let to = u32x8::from_array(eight.to);
    let mut values = from_bytes(start);
    for turn in 0..steps {
        let next = key
            .stem
            .hash_below(steps_on(from, u32::from(turn)), to, values);
        values = next;
    }
    to_bytes(values)
}
