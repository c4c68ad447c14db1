//! Validator sets.

ghost use Rattle.std.specs.Prelude.{◌≡◌};

use dh_base::Id;
use std::marker::Model;

/// The most seats of a set.
pub const MOST_SEATS: usize = 16;

/// The most seats of a set that may deviate.
pub const MOST_DEVIATING: u16 = 5;

/// The validators of an epoch: 3f + 1 different accounts, of which at most f deviate. A contract
/// sees the epoch, f and the list of the accounts, by their seats from 0.
#[derive(Drop)]
pub struct Set {
    pub epoch: u32,
    /// How many seats may deviate, at most 5.
    pub f: u16,
    /// The accounts of the first 3f + 1 seats, and then others that count for nothing.
    pub seats: [Id; 16],
}

impl Model for Set {
    ghost use Rattle.std.specs.Prelude.{◌+◌, ◌*◌, ◌≤◌, take};
    ghost use Rattle.cert_core.specs.Sets.{SetTold, AreDifferent};

    ghost Value = { SetTold };

    ghost view = { λ s. record { epoch = s.epoch; f = s.f; seats = take (3 * s.f + 1) s.seats } };

    ghost invariant = { λ s. (s.f ≤ 5) × AreDifferent (take (3 * s.f + 1) s.seats) };
}

impl Set {
    ghost use Rattle.cert_core.specs.Sets.{HasSeats};
    ghost use Rattle.cert_core.specs.Quorums.{quorum_size};

    /// The same set once more. It takes no memory.
    pub fn copied(&self) -> Set
        ensures { result ≡ self.now }
    {
        Set {
            epoch: self.epoch,
            f: self.f,
            seats: self.seats,
        }
    }

    /// The accounts of the seats.
    pub fn accounts(&self) -> &[Id]
        ensures value { result.now ≡ self.now.seats }
        ensures kept { HasSeats self.now }
    {
        &self.seats[..3 * self.f as usize + 1]
    }

    /// How many seats are a quorum: of two quorums one seat in common complies.
    pub fn quorum_size(&self) -> u16
        ensures { result ≡ quorum_size self.now }
    {
        2 * self.f + 1
    }
}
