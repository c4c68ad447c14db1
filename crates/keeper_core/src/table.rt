//! The slots of one table.

ghost use Rattle.std.specs.Prelude.{◌≡◌, List, ℕ, IsTrue, IfOk, OnOk, OnErr};
ghost use Rattle.std.specs.Option.{option_map, option_copied};
ghost use Rattle.std.specs.FinMap as finite;
ghost use Rattle.keeper_core.specs.Slots.{held, with_room, rows_in};

use crate::row::Row;
use dh_base::{List, NoMemory};
use std::alloc::Global;
use std::collections::BTreeMap;
use std::marker::Model;

/// The slots of one table. A row stands in a slot, and a slot may be empty.
#[derive(Drop)]
pub struct Table {
    slots: BTreeMap<Vec<u8>, Option<Vec<u8>>>,
}

impl Model for Table {
    ghost use Rattle.std.specs.Coded.{coded_ℕ, coded_list, coded_option};
    ghost use Rattle.std.specs.FinMap as finite;
    ghost use Rattle.keeper_core.specs.Slots.{TableSlots};

    ghost Value = { TableSlots };

    ghost coded = { finite.code (coded_list coded_ℕ) (coded_option (coded_list coded_ℕ)) };

    ghost use Rattle.keeper_core.specs.Laying.{bare};

    ghost view = { λ t. finite.from_entries (bare t.slots.entries) };
}

impl Table {
    /// No slots.
    pub fn new(alloc: Global) -> Table
        ensures { result ≡ finite.empty }
    {
        Table {
            slots: BTreeMap::new(alloc),
        }
    }

    /// The bytes that stand at a key.
    pub fn get(&self, key: &[u8]) -> Option<&[u8]>
        ensures { option_copied result ≡ held (finite.get self.now key.now) }
    {
        match self.slots.get(key)? {
            Some(val) => Some(val.as_slice()),
            None => None,
        }
    }

    /// Makes a slot for a key that has none.
    pub fn make_room(&mut self, alloc: Global, key: &[u8]) -> Result<(), NoMemory>
        ensures ok { OnOk result (self.new ≡ with_room self.old key.now) }
        ensures err { OnErr result (self.new ≡ self.old) }
    {
        if !self.slots.contains_key(key) {
            let key = key.to_vec(alloc)?;
            self.slots.insert(key, None)?;
        }
        Ok(())
    }

    /// Fills a key's slot, or empties it.
    pub fn set(&mut self, key: &[u8], val: Option<Vec<u8>>)
        requires { IsTrue (finite.contains_key self.old key.now) }
        ensures { self.new ≡ finite.insert self.old key.now
            (option_map (λ bytes. bytes.items) val) }
    {
        if let Some(slot) = self.slots.get_mut(key) {
            *slot = val;
        }
    }

    /// Whether a key has a slot.
    pub fn has_slot(&self, key: &[u8]) -> bool
        ensures { result ≡ finite.contains_key self.now key.now }
    {
        self.slots.contains_key(key)
    }

    /// Takes a key's slot away, if it is empty.
    pub fn prune(&mut self, key: &[u8])
        ensures { (k : List ℕ) → held (finite.get self.new k) ≡ held (finite.get self.old k) }
    {
        if let Some(None) = self.slots.get(key) {
            self.slots.remove(key);
        }
    }

    /// The rows, in ascending order of their keys.
    pub fn rows(&self, alloc: Global) -> Result<Vec<Row>, NoMemory>
        ensures { IfOk result (λ rows. rows.items ≡ rows_in (finite.entries self.now)) }
    {
        let mut rows = Vec::new(alloc);
        for (key, slot) in &self.slots {
            if let Some(val) = slot {
                rows.push(Row::copied(alloc, key.as_slice(), val.as_slice())?)?;
            }
        }
        Ok(rows)
    }
}
