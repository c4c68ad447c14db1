//! The slots of all tables of a keeper in memory.

ghost use Rattle.std.specs.Prelude.{◌≡◌, ◌<◌, List, ℕ, IsTrue, IfOk, OnOk, OnErr, vec_len, if◌then◌else◌, None};
ghost use Rattle.std.specs.Option.{option_map, option_copied};
ghost use Rattle.std.specs.FinMap as finite;
ghost use Rattle.keeper_core.specs.Tables.{Cell, rows_of};
ghost use Rattle.keeper_core.specs.Slots.{held, with_room, filled};
ghost use Rattle.keeper_core.specs.Batches.{after_change, after_batch};
ghost use Rattle.keeper_core.specs.Laying.{HaveSameSlots};
ghost use Rattle.keeper_core.specs.Rooms.{HasRoom, HaveRoom, KeepsSlots};

use crate::batch::Batch;
use crate::change::Change;
use crate::row::Row;
use crate::table::Table;
use dh_base::{List, NoMemory};
use std::alloc::Global;
use std::marker::Model;

/// The slots of all tables, table by table in the order of their numbers.
#[derive(Drop)]
pub struct Cells {
    alloc: Global,
    tables: Vec<Table>,
}

impl Model for Cells {
    ghost use Rattle.std.specs.Coded.{coded_ℕ, coded_list, coded_option, coded×};
    ghost use Rattle.std.specs.FinMap as finite;
    ghost use Rattle.keeper_core.specs.Slots.{Slots};

    ghost Value = { Slots };

    ghost coded = { finite.code (coded× coded_ℕ (coded_list coded_ℕ)) (coded_option (coded_list coded_ℕ)) };

    ghost use Rattle.keeper_core.specs.Laying.{numbered};

    ghost view = { λ cells. finite.from_entries (numbered 0 cells.tables.items) };
}

/// Makes tables without slots, up to the one at a place.
fn reach(alloc: Global, tables: &mut Vec<Table>, place: usize) -> Result<(), NoMemory>
    ensures reached { OnOk result (place < vec_len tables.new) }
    ensures same { HaveSameSlots tables.old.items tables.new.items }
{
    while tables.len() <= place {
        tables.push(Table::new(alloc))?;
    }
    Ok(())
}

/// The same changes in memory of their own.
fn copied(alloc: Global, changes: &[Change]) -> Result<Vec<Change>, NoMemory>
    ensures { IfOk result (λ copies. copies.items ≡ changes.now) }
{
    let mut copies = Vec::new(alloc);
    for change in changes {
        copies.push(change.copied(alloc)?)?;
    }
    Ok(copies)
}

impl Cells {
    /// No slots.
    pub fn new(alloc: Global) -> Cells
        ensures { result ≡ finite.empty }
    {
        Cells {
            alloc,
            tables: Vec::new(alloc),
        }
    }

    /// The bytes that stand at a key of a table.
    pub fn get(&self, tab: u8, key: &[u8]) -> Option<&[u8]>
        ensures { option_copied result ≡ finite.get (filled self.now) (tab, key.now) }
    {
        match self.tables.get(usize::from(tab)) {
            Some(table) => table.get(key),
            None => None,
        }
    }

    /// The bytes that stand at a key of a table, in memory of their own.
    pub fn read(&self, tab: u8, key: &[u8]) -> Result<Option<List<u8>>, NoMemory>
        ensures { IfOk result (λ val. val ≡ finite.get (filled self.now) (tab, key.now)) }
    {
        match self.get(tab, key) {
            Some(val) => Ok(Some(List::from_vec(val.to_vec(self.alloc)?))),
            None => Ok(None),
        }
    }

    /// Whether a key of a table has a slot.
    pub fn has_slot(&self, tab: u8, key: &[u8]) -> bool
        ensures { result ≡ finite.contains_key self.now (tab, key.now) }
    {
        match self.tables.get(usize::from(tab)) {
            Some(table) => table.has_slot(key),
            None => false,
        }
    }

    /// Makes a slot for a key of a table that has none.
    pub fn make_room(&mut self, tab: u8, key: &[u8]) -> Result<(), NoMemory>
        ensures ok { OnOk result (self.new ≡ with_room self.old (tab, key.now)) }
        ensures err { OnErr result (self.new ≡ self.old) }
    {
        let place = usize::from(tab);
        reach(self.alloc, &mut self.tables, place)?;
        let table = &mut self.tables[place];
        table.make_room(self.alloc, key)
    }

    /// Fills the slot of a key, or empties it.
    pub fn set(&mut self, tab: u8, key: &[u8], val: Option<Vec<u8>>)
        requires { IsTrue (finite.contains_key self.old (tab, key.now)) }
        ensures { self.new ≡ finite.insert self.old (tab, key.now)
            (option_map (λ bytes. bytes.items) val) }
    {
        let table = &mut self.tables[usize::from(tab)];
        table.set(key, val);
    }

    /// Empties the slot of a key, if it has one.
    pub fn clear(&mut self, tab: u8, key: &[u8])
        ensures { self.new ≡ (if finite.contains_key self.old (tab, key.now)
            then finite.insert self.old (tab, key.now) None else self.old) }
    {
        if self.has_slot(tab, key) {
            self.set(tab, key, None);
        }
    }

    /// Takes the slot of a key away, if it is empty.
    pub fn prune(&mut self, tab: u8, key: &[u8])
        ensures { (cell : Cell)
            → held (finite.get self.new cell) ≡ held (finite.get self.old cell) }
    {
        let place = usize::from(tab);
        if place < self.tables.len() {
            let table = &mut self.tables[place];
            table.prune(key);
        }
    }

    /// The rows of a table, in ascending order of their keys.
    pub fn rows(&self, tab: u8) -> Result<Vec<Row>, NoMemory>
        ensures { IfOk result (λ rows. rows.items ≡ rows_of tab (filled self.now)) }
    {
        match self.tables.get(usize::from(tab)) {
            Some(table) => table.rows(self.alloc),
            None => Ok(Vec::new(self.alloc)),
        }
    }

    /// Makes all changes of a batch, or none.
    pub fn apply(&mut self, batch: &Batch) -> Result<(), NoMemory>
        ensures ok { OnOk result (filled self.new ≡ after_batch batch.now (filled self.old)) }
        ensures err { OnErr result (filled self.new ≡ filled self.old) }
    {
        let result = self.write(batch.changes());
        self.tidy(batch.changes());
        result
    }

    /// Takes the memory for all changes, and then makes them.
    fn write(&mut self, changes: &[Change]) -> Result<(), NoMemory>
        ensures ok { OnOk result (filled self.new ≡ after_batch changes.now (filled self.old)) }
        ensures err { OnErr result (filled self.new ≡ filled self.old) }
    {
        let copies = copied(self.alloc, changes)?;
        self.make_rooms(changes)?;
        self.make_all(copies);
        Ok(())
    }

    /// Makes a slot for each key that gets bytes.
    fn make_rooms(&mut self, changes: &[Change]) -> Result<(), NoMemory>
        ensures ok { OnOk result (HaveRoom self.new changes.now) }
        ensures same { filled self.new ≡ filled self.old }
    {
        for change in changes {
            self.make_room_for(change)?;
        }
        Ok(())
    }

    /// Makes a slot for the key of a change, if it gets bytes.
    fn make_room_for(&mut self, change: &Change) -> Result<(), NoMemory>
        ensures ok { OnOk result (HasRoom self.new change.now) }
        ensures keeps { KeepsSlots self.old self.new }
        ensures same { filled self.new ≡ filled self.old }
    {
        match change {
            Change::Put { tab, key, .. } => self.make_room(*tab, key.as_slice()),
            Change::Delete { .. } => Ok(()),
        }
    }

    /// Makes changes for which there is room.
    fn make_all(&mut self, changes: Vec<Change>)
        requires { HaveRoom self.old changes.items }
        ensures { filled self.new ≡ after_batch changes.items (filled self.old) }
    {
        for change in changes {
            self.make(change);
        }
    }

    /// Makes a change for which there is room.
    fn make(&mut self, change: Change)
        requires { HasRoom self.old change }
        ensures made { filled self.new ≡ after_change change (filled self.old) }
        ensures keeps { KeepsSlots self.old self.new }
    {
        match change {
            Change::Put { tab, key, val } => self.set(tab, key.as_slice(), Some(val.into_vec())),
            Change::Delete { tab, key } => self.clear(tab, key.as_slice()),
        }
    }

    /// Takes the empty slots of the changed keys away.
    fn tidy(&mut self, changes: &[Change])
        ensures { filled self.new ≡ filled self.old }
    {
        for change in changes {
            match change {
                Change::Put { tab, key, .. } | Change::Delete { tab, key } => {
                    self.prune(*tab, key.as_slice());
                }
            }
        }
    }
}
