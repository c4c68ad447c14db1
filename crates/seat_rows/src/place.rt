//! Places of seats.

ghost use Rattle.std.specs.Prelude.{◌≡◌};
ghost use Rattle.cert_core.specs.Sets.{id_of_set};
ghost use Rattle.seat_rows.specs.SeatPlaces.{house_of, identity_of, is_first};

use cert_core::{Set, set_id};
use dh_base::Id;
use sha2::{Digest, Sha256};

/// Which seat of which set it is, in the house of that set of epoch 0.
#[derive(Drop)]
pub struct SeatPlace {
    pub genesis: Set,
    pub set: Set,
    pub index: u16,
}

impl SeatPlace {
    /// The id of the house, which is that of its set of epoch 0.
    pub fn house(&self) -> Id
        ensures { result ≡ house_of self.now }
    {
        set_id(&self.genesis)
    }

    /// The id of the seat's own set.
    pub fn set_id(&self) -> Id
        ensures { result ≡ id_of_set self.now.set }
    {
        set_id(&self.set)
    }

    /// Whether the seat is of the set of epoch 0. Such a seat begins with the empty log.
    pub fn is_first(&self) -> bool
        ensures { result ≡ is_first self.now }
    {
        self.set_id() == self.house()
    }

    /// The identity by which its tables name a seat with that account.
    pub fn identity(&self, account: &Id) -> Id
        ensures { result ≡ identity_of self.now account.now.0 }
    {
        let mut hasher = Sha256::new();
        hasher.update(self.house().0.as_slice());
        hasher.update(self.set_id().0.as_slice());
        hasher.update(self.index.to_be_bytes().as_slice());
        hasher.update(account.0.as_slice());
        Id(hasher.finalize())
    }
}
