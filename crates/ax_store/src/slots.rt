//! The slots of a store.

ghost use Rattle.std.specs.Prelude.{◌≡◌, ◌+◌, true, false, length, IfSome, IfNone, slice_set};
ghost use Rattle.ax_pool.specs.Frames.{IsFree, bytes_at, frame_size, free_count};
ghost use Rattle.ax_store.specs.Slots.{IsSlotOf};
ghost use Rattle.ax_store.specs.Store.{SameButSlots, store_slots};

use crate::store::{Store, StoreSlot};

impl<C> Store<C> {
    /// Takes one of the 64 slots. `None` exactly where none is free.
    pub fn take_slot(&mut self) -> Option<StoreSlot>
        ensures was_free { IfSome result (λ slot. IsFree (store_slots self.old) slot.number) }
        ensures is_taken { IfSome result (IsSlotOf self.new) }
        ensures taken { IfSome result (λ slot. (store_slots self.new).taken ≡ slice_set (store_slots self.old).taken slot.number true) }
        ensures one_less { IfSome result (λ slot. free_count (store_slots self.old) ≡ free_count (store_slots self.new) + 1) }
        ensures none { IfNone result (free_count (store_slots self.old) ≡ 0) }
        ensures unchanged { IfNone result (store_slots self.new ≡ store_slots self.old) }
        ensures bytes { (store_slots self.new).bytes ≡ (store_slots self.old).bytes }
        ensures same { SameButSlots self.old self.new }
    {
        self.pool.take()
    }

    /// Gives a slot back: it is free from then on.
    pub fn give_slot(&mut self, slot: StoreSlot)
        requires { IsSlotOf self.old slot }
        ensures free { (store_slots self.new).taken ≡ slice_set (store_slots self.old).taken slot.number false }
        ensures one_more { free_count (store_slots self.new) ≡ free_count (store_slots self.old) + 1 }
        ensures bytes { (store_slots self.new).bytes ≡ (store_slots self.old).bytes }
        ensures same { SameButSlots self.old self.new }
    {
        self.pool.give(slot);
    }

    /// The 65,536 bytes of a slot.
    pub fn slot_bytes(&self, slot: &StoreSlot) -> &[u8]
        requires { IsSlotOf self.now slot.now }
        ensures value { result.now ≡ bytes_at (store_slots self.now) slot.now.number }
        ensures len { length result.now ≡ frame_size }
    {
        self.pool.bytes(slot)
    }
}
