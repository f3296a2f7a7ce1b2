//! The payload of a part that was read.

ghost use Rattle.std.specs.Prelude.{◌≡◌, ◌≤◌, ℕ, List};
ghost use Rattle.ax_store.specs.Slots.{IsRead, IsSlotOf};
ghost use Rattle.ax_store.specs.Store.{store_slots};

use ax_store::{Store, StoreSlot};

/// The payload that was read into the front of a slot, by its length.
pub(crate) fn payload_in<'a, C>(store: &'a Store<C>, slot: &StoreSlot, len: usize) -> &'a [u8]
    requires slot { IsSlotOf store.now slot.now }
    requires room { len ≤ 65536 }
    ensures { (payload : List ℕ) → IsRead payload (store_slots store.now) slot.now.number len → result.now ≡ payload }
{
    let (payload, _) = store.slot_bytes(slot).split_at(len);
    payload
}
