//! A directory: the parts that count, by number.

ghost use Rattle.std.specs.Prelude.{◌≡◌, ℕ, ◌+◌, ◌<◌, ◌≤◌, None, OnOk, IfSome, IfNone, max, option_map};
ghost use Rattle.std.specs.FinMap as map;
ghost use Rattle.ax_store.specs.Rows.{payload_kept, offset_kept};
ghost use Rattle.ax_store.specs.Listed.{IsNextAfter};

use crate::kept_part::KeptPart;
use crate::out_of_memory::Memory;
use crate::row::{Row, clear_row, drop_cleared_rows, first_held, put_row, search};
use crate::together::{Stretch, WINDOW_BYTES, together};
use std::alloc::Global;
use std::marker::Model;

/// The parts that count, by number, in a vector of rows in the order of the numbers.
///
/// A number is found by halves. Putting a number behind all others moves no row, and clearing one
/// marks its row, so neither walks over the rows.
#[derive(Drop)]
pub(crate) struct Directory {
    rows: Vec<Row>,
    // How many rows have a part.
    held: usize,
}

impl Model for Directory {
    ghost use Rattle.std.specs.Prelude.{◌≡◌, ◌-◌, vec_len, vec_capacity};
    ghost use Rattle.std.specs.FinMap as map;
    ghost use Rattle.ax_store.specs.Rows.{AreRising, map_of, payload_kept, offset_kept};
    ghost use Rattle.ax_store.specs.Listed.{Listed, listed_code};

    ghost Value = { Listed };

    ghost coded = { listed_code };

    ghost view = { λ d. record {
      payloads = map_of payload_kept d.rows.items;
      offsets = map_of offset_kept d.rows.items;
      spare = vec_capacity d.rows - vec_len d.rows;
    } };

    ghost invariant = { λ d. AreRising d.rows.items × (d.held ≡ map.len (map_of payload_kept d.rows.items)) };
}

impl Directory {
    /// No number is held. It takes no memory yet.
    pub(crate) fn new(alloc: Global) -> Directory
        ensures payloads { result.payloads ≡ map.empty }
        ensures offsets { result.offsets ≡ map.empty }
    {
        Directory {
            rows: Vec::new(alloc),
            held: 0,
        }
    }

    /// The part of a number. `None` exactly where the number is not held.
    pub(crate) fn get(&self, number: u32) -> Option<&KeptPart>
        ensures payload { option_map (λ part. payload_kept part.now) result ≡ map.get self.now.payloads number }
        ensures offset { option_map (λ part. offset_kept part.now) result ≡ map.get self.now.offsets number }
    {
        match search(&self.rows, number) {
            Ok(at) => self.rows[at].part.as_ref(),
            Err(_) => None,
        }
    }

    /// The least number above another that is held. Rows that were cleared are passed over.
    pub(crate) fn next_after(&self, after: u32) -> Option<u32>
        ensures found { IfSome result (IsNextAfter self.now.payloads after) }
        ensures none { IfNone result ((number : ℕ) → after < number → map.get self.now.payloads number ≡ None) }
    {
        match search(&self.rows, after) {
            Ok(at) => first_held(&self.rows, after, at + 1),
            Err(at) => first_held(&self.rows, after, at),
        }
    }

    /// How many bytes of the area a stretch from the text of a number on has, with the texts of the
    /// next numbers that lie together with it.
    pub(crate) fn together(&self, number: u32, text: Stretch) -> u64
        ensures most { result ≤ max text.len WINDOW_BYTES }
        ensures least { text.len ≤ result }
    {
        match search(&self.rows, number) {
            Ok(at) => together(&self.rows[at + 1..], text),
            Err(_) => text.len,
        }
    }

    /// How many numbers are held.
    pub(crate) fn len(&self) -> usize
        ensures { result ≡ map.len self.now.payloads }
    {
        self.held
    }

    /// Drops the rows that were cleared.
    pub(crate) fn drop_cleared(&mut self)
        ensures payloads { self.new.payloads ≡ self.old.payloads }
        ensures offsets { self.new.offsets ≡ self.old.offsets }
        ensures never_less { self.old.spare ≤ self.new.spare }
    {
        drop_cleared_rows(&mut self.rows);
    }

    /// Drops the rows that were cleared, where they are at least half of all rows.
    fn drop_half(&mut self)
        ensures payloads { self.new.payloads ≡ self.old.payloads }
        ensures offsets { self.new.offsets ≡ self.old.offsets }
        ensures never_less { self.old.spare ≤ self.new.spare }
    {
        if self.held <= self.rows.len() / 2 {
            self.drop_cleared();
        }
    }

    /// Makes room for so many numbers more. Where at least half of the rows were cleared, these are
    /// dropped.
    pub(crate) fn reserve(&mut self, more: usize) -> Result<(), Memory>
        ensures room { OnOk result (more ≤ self.new.spare) }
        ensures payloads { self.new.payloads ≡ self.old.payloads }
        ensures offsets { self.new.offsets ≡ self.old.offsets }
        ensures never_less { self.old.spare ≤ self.new.spare }
    {
        self.drop_half();
        self.rows.reserve(more)?;
        Ok(())
    }

    /// Puts a part under a number, in the place of an earlier one.
    pub(crate) fn put(&mut self, number: u32, part: KeptPart)
        requires { 0 < self.old.spare }
        ensures payloads { self.new.payloads ≡ map.insert self.old.payloads number (payload_kept part) }
        ensures offsets { self.new.offsets ≡ map.insert self.old.offsets number (offset_kept part) }
        ensures room { self.old.spare ≤ self.new.spare + 1 }
    {
        if !put_row(&mut self.rows, number, part) {
            self.held += 1;
        }
    }

    /// Takes the part of a number away, if there is one.
    pub(crate) fn clear(&mut self, number: u32)
        ensures payloads { self.new.payloads ≡ map.remove self.old.payloads number }
        ensures offsets { self.new.offsets ≡ map.remove self.old.offsets number }
        ensures room { self.new.spare ≡ self.old.spare }
    {
        if clear_row(&mut self.rows, number) {
            self.held -= 1;
        }
    }
}
