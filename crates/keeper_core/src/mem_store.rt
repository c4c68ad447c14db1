//! A store in memory.

ghost use Rattle.std.specs.Prelude.{◌≡◌, ◌↔◌, ◌≤◌, ℕ, List, Some, None, true, false, Ok, IfOk, OnOk, OnErr, IsTrue};
ghost use Rattle.std.specs.Result.{IsErrOf};
ghost use Rattle.std.specs.FinMap as finite;
ghost use Rattle.dh_base.specs.Faults.{HasRisen};
ghost use Rattle.dh_base.specs.Calls.{fails_next, after_call};
ghost use Rattle.keeper_core.specs.Slots.{filled};
ghost use Rattle.keeper_core.specs.Knowing.{IsFresh};
ghost use Rattle.keeper_core.specs.Leaving.{KeepsTold};
ghost use Rattle.keeper_core.specs.Memory.{known_of};
ghost use Rattle.keeper_core.specs.Storing.{Hands, LeavesOthers, LeavesAll, KeepsRoom, total_faults};
ghost use Rattle.keeper_core.specs.MemoryStore.{map_in, has_room_in, faults_of, with_room_for, with_map, with_map_out};

use crate::cells::Cells;
use crate::keep_fault::KeepFault;
use crate::mem_keeper::MemKeeper;
use crate::store::Store;
use dh_base::{Calls, List, NoMemory};
use std::alloc::Global;
use std::collections::BTreeMap;
use std::marker::Model;
use std::mem;

/// A store in memory. It tells its maps, and fails the calls that it is told to fail. The map of a
/// name is empty while its keeper is out.
#[derive(Drop)]
pub struct MemStore {
    alloc: Global,
    maps: BTreeMap<String, Cells>,
    calls: Calls,
    returned: u64,
}

impl Model for MemStore {
    ghost use Rattle.std.specs.FinMap as finite;
    ghost use Rattle.keeper_core.specs.MemoryStore.{StoreTold, store_code};

    ghost Value = { StoreTold };

    ghost coded = { store_code };

    ghost use Rattle.keeper_core.specs.Shelving.{shelved};

    ghost view = { λ s. record {
      maps = finite.from_entries (shelved s.maps.entries);
      calls = s.calls;
      returned = s.returned;
    } };
}

impl MemStore {
    /// A store whose maps are empty, of which the calls of `keep` with the numbers `fails`, from 0,
    /// are to fail.
    pub fn new(alloc: Global, fails: List<u32>) -> MemStore
        ensures { result ≡ record {
          maps = finite.empty;
          calls = record { fails = fails; made = 0; faults = 0 };
          returned = 0;
        } }
    {
        MemStore {
            alloc,
            maps: BTreeMap::new(alloc),
            calls: Calls::new(fails),
            returned: 0,
        }
    }

    /// How many calls have failed, of the store and of the keepers that came back.
    pub fn faults(&self) -> u64
        ensures { result ≡ faults_of self.now }
    {
        self.calls.faults().saturating_add(self.returned)
    }

    /// Makes room for the map of a name.
    fn make_room(&mut self, name: &str) -> Result<(), NoMemory>
        ensures ok { OnOk result
            (self.new ≡ record self.old { maps = with_room_for self.old.maps name.now }) }
        ensures err { OnErr result (self.new ≡ self.old) }
    {
        if !self.maps.contains_key(name) {
            let name = String::from_str(self.alloc, name)?;
            self.maps.insert(name, Cells::new(self.alloc))?;
        }
        Ok(())
    }

    /// Puts a map in the place of that of a name, and gives that one, or the same where there is no
    /// room.
    fn replace(&mut self, name: &str, cells: Cells) -> Cells
        ensures maps { self.new ≡ record self.old {
          maps = with_map self.old.maps name.now (filled cells);
        } }
        ensures given { finite.contains_key self.old.maps name.now ≡ true
            → filled result ≡ map_in self.old.maps name.now }
    {
        match self.maps.get_mut(name) {
            Some(kept) => mem::replace(kept, cells),
            None => cells,
        }
    }
}

impl Store for MemStore {
    type Keep = MemKeeper;

    ghost map_of = { λ s name. Some (map_in s.maps name) };

    ghost has_room = { λ s name. has_room_in s.maps name };

    ghost faults = { λ s. faults_of s };

    fn keep(&mut self, name: &str) -> Result<MemKeeper, KeepFault>
        ensures gives { IfOk result (λ keeper. Hands (Some (map_in self.old.maps name.now))
            (Some keeper.tables)) }
        ensures fresh { IfOk result (λ keeper. IsFresh (known_of keeper)) }
        ensures taken { OnOk result (map_in self.new.maps name.now ≡ finite.empty) }
        ensures room { OnOk result (has_room_in self.new.maps name.now) }
        ensures rooms { KeepsRoom (has_room_in self.old.maps) (has_room_in self.new.maps) }
        ensures others { LeavesOthers name.now (λ n. Some (map_in self.old.maps n))
            (λ n. Some (map_in self.new.maps n)) }
        ensures unchanged { OnErr result (LeavesAll (λ n. Some (map_in self.old.maps n))
            (λ n. Some (map_in self.new.maps n))) }
        ensures quiet { OnOk result (faults_of self.new ≡ faults_of self.old) }
        ensures failed { IsErrOf result KeepFault.Failed
            → HasRisen (faults_of self.old) (faults_of self.new) }
        ensures count { faults_of self.old ≤ faults_of self.new }
        ensures maps { OnOk result (self.new.maps ≡ with_map_out self.old.maps name.now) }
        ensures same_maps { OnErr result (self.new.maps ≡ self.old.maps) }
        ensures told { IsErrOf result KeepFault.Failed ↔ IsTrue (fails_next self.old.calls) }
        ensures calls { self.new.calls ≡ after_call self.old.calls }
        ensures returned { self.new.returned ≡ self.old.returned }
    {
        self.calls.make()?;
        self.make_room(name)?;
        let cells = self.replace(name, Cells::new(self.alloc));
        Ok(MemKeeper::over(cells))
    }

    fn back(&mut self, name: &str, keep: MemKeeper)
        ensures own { has_room_in self.old.maps name.now
            → KeepsTold (Some keep.tables) (Some (map_in self.new.maps name.now)) }
        ensures rooms { KeepsRoom (has_room_in self.old.maps) (has_room_in self.new.maps) }
        ensures others { LeavesOthers name.now (λ n. Some (map_in self.old.maps n))
            (λ n. Some (map_in self.new.maps n)) }
        ensures count { faults_of self.new ≡ total_faults (faults_of self.old) keep.faults }
        ensures maps { self.new.maps ≡ with_map self.old.maps name.now keep.tables }
        ensures calls { self.new.calls ≡ self.old.calls }
        ensures returned { self.new.returned ≡ total_faults self.old.returned keep.faults }
    {
        self.returned = self.returned.saturating_add(keep.faults());
        self.replace(name, keep.into_cells());
    }
}
