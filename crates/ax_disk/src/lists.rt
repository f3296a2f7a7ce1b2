//! The three lists of a store in memory, in room that was taken before.
ghost use Rattle.std.specs.Prelude.{◌≡◌, ◌+◌, ◌≤◌, ◌++◌, List, length, take, drop, vec_len, vec_capacity, IfOk};
ghost use Rattle.ax_disk.specs.model.Image.{list_of, with_list};
ghost use Rattle.ax_disk.specs.model.Calls.{overwritten};
ghost use Rattle.ax_disk.specs.model.Pending.{AreBytes};

use crate::Extent;
use std::alloc::{AllocError, Global};

#[derive(Drop)]
pub(crate) struct Lists {
    pub root: Vec<u8>,
    pub a: Vec<u8>,
    pub b: Vec<u8>,
}

impl Lists {
    ghost use Rattle.ax_disk.specs.mem_disk.Lists.{image_of, IsOfBytes, least_capacity, greatest_length};

    /// The length of the longest list after so many bytes are written behind it.
    pub fn longest_with(&self, room: usize) -> Result<usize, AllocError>
        ensures { IfOk result (λ length. length ≡ greatest_length (image_of self.now) + room) }
    {
        let longest = self.root.len().max(self.a.len()).max(self.b.len());
        match longest.checked_add(room) {
            Some(length) => Ok(length),
            None => Err(AllocError),
        }
    }

    /// Takes room for lists of `capacity` bytes.
    pub fn reserve(&mut self, capacity: usize) -> Result<(), AllocError>
        requires { greatest_length (image_of self.old) ≤ capacity }
        ensures same { image_of self.new ≡ image_of self.old }
        ensures room { IfOk result (λ _. capacity ≤ least_capacity self.new) }
    {
        self.root.reserve_exact(capacity - self.root.len())?;
        self.a.reserve_exact(capacity - self.a.len())?;
        self.b.reserve_exact(capacity - self.b.len())?;
        Ok(())
    }

    /// A copy with room for lists of `capacity` bytes.
    pub fn copy(&self, alloc: Global, capacity: usize) -> Result<Lists, AllocError>
        requires { greatest_length (image_of self.now) ≤ capacity }
        ensures same { IfOk result (λ copy. image_of copy ≡ image_of self.now) }
        ensures fit { IfOk result (λ copy. IsOfBytes (image_of copy)) }
        ensures room { IfOk result (λ copy. capacity ≤ least_capacity copy) }
    {
        let mut copy = Lists {
            root: Vec::with_capacity(alloc, capacity)?,
            a: Vec::with_capacity(alloc, capacity)?,
            b: Vec::with_capacity(alloc, capacity)?,
        };
        copy.set(self);
        Ok(copy)
    }

    /// Takes over the bytes of `other`.
    pub fn set(&mut self, other: &Lists)
        requires { greatest_length (image_of other.now) ≤ least_capacity self.old }
        ensures same { image_of self.new ≡ image_of other.now }
        ensures fit { IsOfBytes (image_of self.new) }
        ensures room { least_capacity self.old ≤ least_capacity self.new }
    {
        set(&mut self.root, &other.root);
        set(&mut self.a, &other.a);
        set(&mut self.b, &other.b);
    }

    pub fn list(&self, ext: Extent) -> &[u8]
        ensures { result.now ≡ list_of ext (image_of self.now) }
    {
        match ext {
            Extent::Root => &self.root,
            Extent::A => &self.a,
            Extent::B => &self.b,
        }
    }

    pub fn write(&mut self, ext: Extent, at: usize, bytes: &[u8])
        requires offset { at ≤ length (list_of ext (image_of self.old)) }
        requires room { at + length bytes.now ≤ least_capacity self.old }
        ensures written { image_of self.new
            ≡ with_list ext (overwritten (list_of ext (image_of self.old)) at bytes.now)
            (image_of self.old) }
        ensures room { least_capacity self.old ≤ least_capacity self.new }
    {
        match ext {
            Extent::Root => overwrite(&mut self.root, at, bytes),
            Extent::A => overwrite(&mut self.a, at, bytes),
            Extent::B => overwrite(&mut self.b, at, bytes),
        }
    }

    pub fn cut(&mut self, ext: Extent, len: usize)
        ensures cut { image_of self.new
            ≡ with_list ext (take len (list_of ext (image_of self.old))) (image_of self.old) }
        ensures room { least_capacity self.old ≤ least_capacity self.new }
    {
        match ext {
            Extent::Root => self.root.truncate(len),
            Extent::A => self.a.truncate(len),
            Extent::B => self.b.truncate(len),
        }
    }
}

fn set(list: &mut Vec<u8>, bytes: &[u8])
    requires { length bytes.now ≤ vec_capacity list.old }
    ensures same { list.new.items ≡ bytes.now }
    ensures fit { AreBytes list.new.items }
    ensures room { vec_capacity list.old ≤ vec_capacity list.new }
{
    list.clear();
    let taken = list.extend_from_slice(bytes);
    prove!(taken.is_ok());
}

fn overwrite(list: &mut Vec<u8>, at: usize, bytes: &[u8])
    requires offset { at ≤ vec_len list.old }
    requires room { at + length bytes.now ≤ vec_capacity list.old }
    ensures written { list.new.items ≡ overwritten list.old.items at bytes.now }
    ensures room { vec_capacity list.old ≤ vec_capacity list.new }
{
    let end = at + bytes.len();
    if end <= list.len() {
        list[at..end].copy_from_slice(bytes);
    } else {
        list.truncate(at);
        let taken = list.extend_from_slice(bytes);
        prove!(taken.is_ok());
    }
}
