//! The table.

ghost use Rattle.std.specs.Prelude.{◌≡◌, ◌≢◌, ℕ, ◌<◌, ◌≤◌, ◌⊎◌, ◌↔◌, List, [], length, IfOk, IfSome, IfNone};
ghost use Rattle.std.specs.List.{Contains};

use crate::entry::Entry;
use crate::hash::place_of;
use crate::out_of_memory::Memory;
use crate::place::{number_in, put_entry, without};
use std::alloc::Global;
use std::marker::Model;

/// Ids, each with a number, as many as there are places at most.
///
/// Contracts see a list of the entries, each an id, as its bytes, and its number.
#[derive(Drop)]
pub struct RecentIds {
    places: Vec<Option<Entry>>,
}

impl Model for RecentIds {
    ghost use Rattle.std.specs.Prelude.{ℕ, List};
    ghost use Rattle.ax_recent.specs.Table.{entries_of, IsTable};

    ghost Value = { List (List ℕ × ℕ) };

    ghost view = { λ t. entries_of t.places.items };

    ghost invariant = { λ t. IsTable t.places.items };
}

impl RecentIds {
    /// A table of so many places, all empty. `Memory` where there is not enough.
    pub fn make(alloc: Global, places: u32) -> Result<RecentIds, Memory>
        requires { 0 < places }
        ensures { IfOk result (λ ids. ids ≡ []) }
    {
        let places = vec![in alloc; None; places as usize]?;
        Ok(RecentIds { places })
    }

    /// The number under which an id stands in the table; `None` exactly where it does not. It takes no
    /// memory.
    pub fn get(&self, id: &[u8]) -> Option<u32>
        ensures found { IfSome result (λ number. Contains self.now (id.now, number)) }
        ensures none { IfNone result ((number : ℕ) → Contains self.now (id.now, number) → ⊥) }
    {
        let place = place_of(id, self.places.len());
        number_in(&self.places[place], id)
    }

    /// Puts an id with its number at its place, whatever stood there. An id of more than 30 bytes is not
    /// kept. It takes no memory.
    pub fn put(&mut self, id: &[u8], number: u32)
        ensures put { length id.now ≤ 30 → Contains self.new (id.now, number) }
        ensures only { (entry : List ℕ × ℕ) → Contains self.new entry
            → (entry ≡ (id.now, number)) ⊎ (Contains self.old entry × (entry.0 ≢ id.now)) }
    {
        if let Some(entry) = Entry::of(id, number) {
            put_entry(&mut self.places, entry);
        }
    }

    /// Takes an id out, if it is there. It takes no memory.
    pub fn remove(&mut self, id: &[u8])
        ensures gone { (number : ℕ) → Contains self.new (id.now, number) → ⊥ }
        ensures others { (entry : List ℕ × ℕ) → entry.0 ≢ id.now → Contains self.new entry ↔ Contains self.old entry }
    {
        let place = place_of(id, self.places.len());
        self.places[place] = without(self.places[place], id);
    }
}
