//! Where keepers are taken from by name.

ghost use Rattle.std.specs.Prelude.{◌≡◌, ◌≤◌, ℕ, List, Option, Ok, IfOk, OnOk, OnErr};
ghost use Rattle.std.specs.Result.{IsErrOf};
ghost use Rattle.dh_base.specs.Faults.{HasRisen};
ghost use Rattle.keeper_core.specs.Tables.{Tables};
ghost use Rattle.keeper_core.specs.Knowing.{IsFresh};
ghost use Rattle.keeper_core.specs.Leaving.{KeepsTold};
ghost use Rattle.keeper_core.specs.Storing.{Hands, IsOut, LeavesOthers, LeavesAll, KeepsRoom, total_faults};

use crate::keep_fault::KeepFault;
use crate::keeper::Keeper;

/// A store of keepers: a map for each name, with a count of the calls that failed. The map of a
/// name is taken out with its keeper, and comes back with it.
pub trait Store {
    type Keep: Keeper;

    /// The map of a name, where it is told.
    ghost map_of: { Self → List ℕ → Option Tables };

    /// Whether there is room for the map of a name, so that its keeper can come back.
    ghost has_room: { Self → List ℕ → Type 0 };

    /// How many calls have failed, of the store and of the keepers that came back. It never falls.
    ghost faults: { Self → ℕ };

    /// The keeper of the map of a name. It runs, and no call of it has failed. From then on there
    /// is room for the map of that name.
    fn keep(&mut self, name: &str) -> Result<Self::Keep, KeepFault>
        ensures gives { IfOk result (λ keeper. Hands (map_of self.old name.now)
            (Self.Keep.known keeper).tables) }
        ensures fresh { IfOk result (λ keeper. IsFresh (Self.Keep.known keeper)) }
        ensures taken { OnOk result (IsOut (map_of self.new name.now)) }
        ensures room { OnOk result (has_room self.new name.now) }
        ensures rooms { KeepsRoom (has_room self.old) (has_room self.new) }
        ensures others { LeavesOthers name.now (map_of self.old) (map_of self.new) }
        ensures unchanged { OnErr result (LeavesAll (map_of self.old) (map_of self.new)) }
        ensures quiet { OnOk result (faults self.new ≡ faults self.old) }
        ensures failed { IsErrOf result KeepFault.Failed
            → HasRisen (faults self.old) (faults self.new) }
        ensures count { faults self.old ≤ faults self.new };

    /// Takes a keeper back. Its map is the one of that name from then on, if there is room for it,
    /// and the calls of it that failed count as those of the store. It takes no memory.
    fn back(&mut self, name: &str, keep: Self::Keep)
        ensures own { has_room self.old name.now
            → KeepsTold (Self.Keep.known keep).tables (map_of self.new name.now) }
        ensures rooms { KeepsRoom (has_room self.old) (has_room self.new) }
        ensures others { LeavesOthers name.now (map_of self.old) (map_of self.new) }
        ensures count { faults self.new ≡
            total_faults (faults self.old) (Self.Keep.known keep).faults };
}
