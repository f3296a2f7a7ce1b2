//! The pool: its frames and which of them are taken.

ghost use Rattle.std.specs.Prelude.{◌≡◌, ◌+◌, ◌<◌, true, false, not, length, All, IfOk, IfSome, IfNone, slice_set, slice_index_or, count_by, replicate};
ghost use Rattle.std.specs.Borrow.{Lends, Array, sem, u8 as byte};
ghost use Rattle.ax_pool.specs.Frames.{IsTaken, IsFree, bytes_at, frame_size, free_count, AddUp, with_front};
ghost use Rattle.ax_pool.specs.contracts.pool.Pool.{the_row};

use crate::out_of_memory::Memory;
use crate::slot::Slot;
use std::alloc::Global;
use std::marker::{Model, PhantomData};

/// How many bytes a frame has: 64 KiB.
pub const FRAME_BYTES: usize = 65_536;

/// Frames of 64 KiB, each free or taken by a slot.
///
/// Making it takes all memory that it ever needs. `P` is the marker of the pool and of its slots, a
/// type of which no value is kept: a pool takes no slot of another marker.
#[derive(Drop)]
pub struct Pool<P> {
    frames: Vec<Vec<u8>>,
    taken: Vec<bool>,
    of: PhantomData<P>,
}

impl<P> Model for Pool<P> {
    ghost use Rattle.std.specs.Prelude.{◌≡◌, ◌<◌, ◌^◌, length, map, All};
    ghost use Rattle.ax_pool.specs.Frames.{Frames, frames_code, frame_size};

    ghost Value = { Frames };

    ghost coded = { frames_code };

    ghost view = { λ p. record { bytes = map (λ frame. frame.items) p.frames.items; taken = p.taken.items } };

    ghost invariant = { λ p. All (λ frame. length frame.items ≡ frame_size) p.frames.items
        × (length p.frames.items ≡ length p.taken.items) × (length p.taken.items < 2 ^ 32) };
}

impl<P> Pool<P> {
    #[tactic(auto, using(crate::proofs::Counting::counts_add_up))]
    /// A pool of so many frames, all free and filled with 0. `Memory` where there is not enough.
    pub fn make(alloc: Global, n: u32) -> Result<Pool<P>, Memory>
        ensures frames { IfOk result (λ pool. length pool.bytes ≡ n) }
        ensures all_free { IfOk result (λ pool. pool.taken ≡ replicate n false) }
        ensures add_up { IfOk result AddUp }
    {
        let frames = empty_frames(alloc, n)?;
        let taken = vec![in alloc; false; n as usize]?;
        Ok(Pool {
            frames,
            taken,
            of: PhantomData,
        })
    }

    #[tactic(auto, using(crate::proofs::Counting::free_within, crate::proofs::Counting::none_free, crate::proofs::Counting::one_less_free))]
    /// A free frame, which is taken from then on. `None` exactly where no frame is free.
    pub fn take(&mut self) -> Option<Slot<P>>
        ensures was_free { IfSome result (λ slot. IsFree self.old slot.number) }
        ensures is_taken { IfSome result (λ slot. IsTaken self.new slot.number) }
        ensures taken { IfSome result (λ slot. self.new.taken ≡ slice_set self.old.taken slot.number true) }
        ensures one_less { IfSome result (λ slot. free_count self.old ≡ free_count self.new + 1) }
        ensures none { IfNone result (free_count self.old ≡ 0) }
        ensures unchanged { IfNone result (self.new ≡ self.old) }
        ensures bytes { self.new.bytes ≡ self.old.bytes }
        ensures add_up { AddUp self.new }
    {
        let number = first_free(&self.taken)?;
        self.taken[number] = true;
        let number = number as u32;
        Some(Slot {
            number,
            of: PhantomData,
        })
    }

    #[tactic(auto, using(crate::proofs::Counting::taken_within, crate::proofs::Counting::one_more_free))]
    /// Gives a slot back: its frame is free from then on.
    pub fn give(&mut self, slot: Slot<P>)
        requires { IsTaken self.old slot.number }
        ensures free { self.new.taken ≡ slice_set self.old.taken slot.number false }
        ensures one_more { free_count self.new ≡ free_count self.old + 1 }
        ensures bytes { self.new.bytes ≡ self.old.bytes }
        ensures add_up { AddUp self.new }
    {
        self.taken[slot.number as usize] = false;
    }

    /// The bytes of a slot's frame.
    pub fn bytes(&self, slot: &Slot<P>) -> &[u8]
        requires { IsTaken self.now slot.now.number }
        ensures value { result.now ≡ bytes_at self.now slot.now.number }
        ensures len { length result.now ≡ frame_size }
    {
        &self.frames[slot.number as usize]
    }

    /// The bytes of a slot's frame, to write there. All other frames stay as they are.
    pub fn bytes_mut(&mut self, slot: &mut Slot<P>) -> &mut [u8]
        requires { IsTaken self.old slot.old.number }
        ensures* writes { sem 𝓛 (Lends (the_row P.row) (Array byte 0) self.entry result (with_front self.old slot.old.number)) }
        ensures value { result.now ≡ bytes_at self.old slot.old.number }
        ensures len { length result.now ≡ frame_size }
        ensures slot { slot.new ≡ slot.old }
    {
        self.frame_mut(slot.number)
    }

    /// The bytes of a frame that is taken, to write there.
    fn frame_mut(&mut self, number: u32) -> &mut [u8]
        requires { IsTaken self.old number }
        ensures* writes { sem 𝓛 (Lends (the_row P.row) (Array byte 0) self.entry result (with_front self.old number)) }
        ensures value { result.now ≡ bytes_at self.old number }
        ensures len { length result.now ≡ frame_size }
    {
        let frame = &mut self.frames[number as usize];
        frame.as_mut_slice()
    }
}

/// So many frames, filled with 0.
fn empty_frames(alloc: Global, n: u32) -> Result<Vec<Vec<u8>>, Memory>
    ensures count { IfOk result (λ frames. length frames.items ≡ n) }
    ensures size { IfOk result (λ frames. All (λ frame. length frame.items ≡ frame_size) frames.items) }
{
    let mut frames = Vec::with_capacity(alloc, n as usize)?;
    for _ in 0..n {
        let frame = vec![in alloc; 0; FRAME_BYTES]?;
        frames.push_reserved(frame);
    }
    Ok(frames)
}

/// The number of the first frame that is free.
fn first_free(taken: &[bool]) -> Option<usize>
    ensures some { IfSome result (λ at. slice_index_or taken.now at true ≡ false) }
    ensures none { IfNone result (All (λ taken. taken ≡ true) taken.now) }
{
    taken.iter().position(|taken| !*taken)
}
