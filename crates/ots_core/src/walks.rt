//! Walks on all chains of a key. Chains of which about as many steps are to be taken are walked
//! side by side.

ghost use Rattle.std.specs.Prelude.{◌≡◌, ℕ, List, [], ◌<◌, ◌≤◌, ◌+◌, ◌*◌, slice_index, slice_index_or};
ghost use Rattle.ots_core.specs.Chains as specs;
ghost use Rattle.ots_core.specs.Keys as keys;
ghost use Rattle.ots_core.specs.Walks.{AreWays, IsKey, IsUnderWay};

use crate::chain::{CHAINS, SECRET, STEPS};
use crate::key::Key;
use crate::side_by_side::{Eight, walk_eight};

/// Secret elements are made as the step with this number is taken.
const SECRET_STEP: u16 = SECRET as u16;

/// At which step each chain begins, and at which it ends.
#[derive(Clone, Copy, Drop)]
pub(crate) struct Ways {
    pub(crate) from: [u16; 67],
    pub(crate) to: [u16; 67],
}

/// Chains that wait to be walked: those in the places from `first` on and below `count`.
#[derive(Clone, Copy, Drop)]
struct Group {
    chains: [u16; 8],
    first: usize,
    count: usize,
}

/// The ways of eight chains.
fn eight_of(ways: &Ways, chains: &[u16; 8]) -> Eight
    requires { (j : ℕ) → j < 8 → slice_index chains.now j < 67 }
    ensures from { (j : ℕ) → j < 8 → slice_index result.from j
        ≡ 256 * slice_index chains.now j + slice_index ways.now.from (slice_index chains.now j) }
    ensures to { (j : ℕ) → j < 8 → slice_index result.to j
        ≡ 256 * slice_index chains.now j + slice_index ways.now.to (slice_index chains.now j) }
{
    let mut eight = Eight {
        from: [0; 8],
        to: [0; 8],
    };
    for j in 0..8 {
        let chain = chains[j] as usize;
        eight.from[j] = 256 * u32::from(chains[j]) + u32::from(ways.from[chain]);
        eight.to[j] = 256 * u32::from(chains[j]) + u32::from(ways.to[chain]);
    }
    eight
}

/// The values of eight chains.
fn values_of(values: &[[u8; 32]; 67], chains: &[u16; 8]) -> [[u8; 32]; 8]
    requires { (j : ℕ) → j < 8 → slice_index chains.now j < 67 }
    ensures { (j : ℕ) → j < 8 →
        slice_index_or result j [] ≡ slice_index_or values.now (slice_index chains.now j) [] }
{
    let mut held = [[0; 32]; 8];
    for j in 0..8 {
        held[j] = values[chains[j] as usize];
    }
    held
}

/// Walks the chains that wait, which have no more steps than that, and lets none wait.
fn walk_group(key: &Key, ways: &Ways, steps: u16, group: &mut Group, values: &mut [[u8; 32]; 67])
    requires steps { steps ≤ 15 }
    requires key { IsKey key.now }
    requires ways { AreWays ways.now.from ways.now.to }
    requires places { group.old.count ≤ 8 }
    requires chains { (j : ℕ) → j < 8 → slice_index group.old.chains j < 67 }
    ensures first { group.new.first ≡ 0 }
    ensures none { group.new.count ≡ 0 }
    ensures chains { group.new.chains ≡ group.old.chains }
    ensures under_way { (before : List (List ℕ)) (seen : ℕ) → seen ≤ 67 * (steps + 1)
        → IsUnderWay key.now.ident key.now.q ways.now.from ways.now.to before seen
        group.old.chains group.old.first group.old.count values.old
        → IsUnderWay key.now.ident key.now.q ways.now.from ways.now.to before seen
        group.new.chains group.new.first group.new.count values.new }
{
    let start = values_of(values, &group.chains);
    let ends = walk_eight(key, &eight_of(ways, &group.chains), steps, &start);
    for j in group.first..group.count {
        values[group.chains[j] as usize] = ends[j];
    }
    group.first = 0;
    group.count = 0;
}

/// Lets a chain wait, and walks the group where it is full.
fn join(key: &Key, ways: &Ways, steps: u16, i: u16, group: &mut Group, values: &mut [[u8; 32]; 67])
    requires steps { steps ≤ 15 }
    requires key { IsKey key.now }
    requires ways { AreWays ways.now.from ways.now.to }
    requires chain { i < 67 }
    requires way { slice_index ways.now.to i ≡ slice_index ways.now.from i + steps }
    requires room { group.old.count < 8 }
    requires chains { (j : ℕ) → j < 8 → slice_index group.old.chains j < 67 }
    ensures room { group.new.count < 8 }
    ensures chains { (j : ℕ) → j < 8 → slice_index group.new.chains j < 67 }
    ensures under_way { (before : List (List ℕ)) →
        IsUnderWay key.now.ident key.now.q ways.now.from ways.now.to before (67 * steps + i)
        group.old.chains group.old.first group.old.count values.old
        → IsUnderWay key.now.ident key.now.q ways.now.from ways.now.to before (67 * steps + (i + 1))
        group.new.chains group.new.first group.new.count values.new }
{
    group.chains[group.count] = i;
    group.count += 1;
    if group.count == 8 {
        walk_group(key, ways, steps, group, values);
    }
}

/// Lets each chain wait that has so many steps.
fn join_all(key: &Key, ways: &Ways, steps: u16, group: &mut Group, values: &mut [[u8; 32]; 67])
    requires steps { steps ≤ 15 }
    requires key { IsKey key.now }
    requires ways { AreWays ways.now.from ways.now.to }
    requires room { group.old.count < 8 }
    requires chains { (j : ℕ) → j < 8 → slice_index group.old.chains j < 67 }
    ensures room { group.new.count < 8 }
    ensures chains { (j : ℕ) → j < 8 → slice_index group.new.chains j < 67 }
    ensures under_way { (before : List (List ℕ)) →
        IsUnderWay key.now.ident key.now.q ways.now.from ways.now.to before (67 * steps)
        group.old.chains group.old.first group.old.count values.old
        → IsUnderWay key.now.ident key.now.q ways.now.from ways.now.to before (67 * (steps + 1))
        group.new.chains group.new.first group.new.count values.new }
{
    for i in 0..CHAINS {
        if ways.to[i as usize] == ways.from[i as usize] + steps {
            join(key, ways, steps, i, group, values);
        }
    }
}

/// The values of all chains at the ends of their ways.
pub(crate) fn walk(key: &Key, ways: &Ways, start: &[[u8; 32]; 67]) -> [[u8; 32]; 67]
    requires key { IsKey key.now }
    requires ways { AreWays ways.now.from ways.now.to }
    ensures { (i : ℕ) → i < 67 → slice_index_or result i []
        ≡ specs.chain key.now.ident key.now.q i
        (slice_index ways.now.from i) (slice_index ways.now.to i)
        (slice_index_or start.now i []) }
{
    // The first group has the room that 67 chains leave in nine groups, since it takes the fewest
    // steps.
    let mut group = Group {
        chains: [0; 8],
        first: 5,
        count: 5,
    };
    let mut values = *start;
    for steps in 0..STEPS + 1 {
        join_all(key, ways, steps, &mut group, &mut values);
    }
    if group.first < group.count {
        walk_group(key, ways, STEPS, &mut group, &mut values);
    }
    values
}

/// Where the chains begin (appendix A).
pub(crate) fn secret_elements(seed: &[u8; 32], key: &Key) -> [[u8; 32]; 67]
    requires { IsKey key.now }
    ensures { (i : ℕ) → i < 67 →
        slice_index_or result i [] ≡ keys.secret_element seed.now key.now.ident key.now.q i }
{
    let ways = Ways {
        from: [SECRET_STEP; 67],
        to: [SECRET_STEP + 1; 67],
    };
    walk(key, &ways, &[*seed; 67])
}
