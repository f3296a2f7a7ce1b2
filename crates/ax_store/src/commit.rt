//! Committing a batch.

ghost use Rattle.std.specs.Prelude.{◌≡◌, ◌≢◌, ◌≤◌, ◌<◌, ◌∷◌, ◌++◌, ℕ, List, Some, Err, true, false, length, IsTrue, IfErr, OnOk, OnErr};
ghost use Rattle.ax_disk.specs.model.Calls.{Idles};
ghost use Rattle.ax_disk.specs.model.Stays.{Rests, Turns};
ghost use Rattle.ax_area.specs.Changes.{Change};
ghost use Rattle.ax_area.specs.Contents.{Contents, after_changes};
ghost use Rattle.ax_area.specs.Image.{Says};
ghost use Rattle.ax_area.specs.Parts.{after_parts, changes_said};
ghost use Rattle.ax_area.specs.Told.{Told};
ghost use Rattle.ax_pages.specs.declared.numbers.TheConstants.{NEWEST_VERSION};
ghost use Rattle.ax_store.specs.Batch.{AreAllowed, batch_parts, is_sealed};
ghost use Rattle.ax_store.specs.Faults.{HasDiskCause};
ghost use Rattle.ax_store.specs.Kept.{deltas_of};
ghost use Rattle.ax_store.specs.Store.{Agrees, SameButRoom, SaysMore, store_contents, store_parts, store_area, store_slots, store_spare, store_room, store_failed};

use crate::batch::Batch;
use crate::fault::StoreFault;
use crate::load::FRAME_HEAD_BYTES;
use crate::out_of_memory::Memory;
use crate::put_changes::put_changes;
use crate::store::Store;
use ax_cache::PageCache;
use ax_disk::Disk;

impl<C> Store<C> {
    /// Makes room for a batch of so many parts. `Memory` where there is none; the store is then as
    /// before but for the room.
    pub fn reserve(&mut self, parts: usize) -> Result<(), Memory>
        ensures room { OnOk result (parts ≤ store_spare self.new) }
        ensures never_less { store_spare self.old ≤ store_spare self.new }
        ensures rooms { (number : ℕ) → store_room number self.new ≡ store_room number self.old }
        ensures same { SameButRoom self.old self.new }
    {
        self.pages.reserve(parts)
    }

    /// Makes room for so many deltas of a term page, beside the room for their batch. `Memory` where
    /// there is none; the store is then as before but for the room.
    pub fn reserve_deltas(&mut self, page: u32, deltas: usize) -> Result<(), Memory>
        requires { page < length (store_contents self.old).terms }
        ensures room { OnOk result (deltas ≤ store_room page self.new) }
        ensures spare { store_spare self.old ≤ store_spare self.new }
        ensures never_less { (number : ℕ) → store_room number self.old ≤ store_room number self.new }
        ensures same { SameButRoom self.old self.new }
    {
        self.pages.reserve_deltas(page, deltas)
    }
}

impl<C: PageCache> Store<C> {
    /// Makes the parts of a sealed batch durable together, and changes the pages by them. It takes no
    /// memory, and its only error is `Disk`: the pages are then as before, in memory, and the store
    /// has failed. Room for the parts was made by `reserve`, and for deltas of term pages by
    /// `reserve_deltas` besides; and the changes that the parts say may follow the store's contents.
    pub fn commit<D: Disk>(&mut self, disk: &mut D, batch: Batch) -> Result<(), StoreFault>
        requires agrees { IsTrue (D.is_honest disk.old) → store_failed self.old ≡ false
            → Agrees C.pages self.old (D.history disk.old (D.attached disk.old)) }
        requires sealed { is_sealed batch ≡ true }
        requires room { length (batch_parts batch) ≤ store_spare self.old }
        requires deltas { (number : ℕ) → deltas_of number (batch_parts batch) ≤ store_room number self.old }
        requires within { AreAllowed (batch_parts batch) (store_contents self.old) }

        ensures ok { OnOk result (after_parts (batch_parts batch) (store_contents self.old) ≡ Some (store_contents self.new)) }
        ensures err { OnErr result (store_parts self.new ≡ store_parts self.old) }
        ensures agrees { IsTrue (D.is_honest disk.old)
            → OnOk result (Agrees C.pages self.new (D.history disk.new (D.attached disk.new))) }

        // A crash at any moment of the call, and after it, leaves what was told before it and those contents; or behind
        // it what says the changes of the batch, and the new contents.
        ensures any_moment { IsTrue (D.is_honest disk.old) → store_failed self.old ≡ false
            → (version : ℕ) → (told : List Told) → (changes : List Change) → (new : Contents)
            → Says NEWEST_VERSION version told (store_contents self.old) (D.history disk.old (D.attached disk.old)).reads
            → changes_said (batch_parts batch) ≡ Some changes
            → after_changes changes (store_contents self.old) ≡ Some new
            → Turns (D.history disk.old (D.attached disk.old)) (D.history disk.new (D.attached disk.new))
            (Says NEWEST_VERSION version told (store_contents self.old)) (SaysMore version told changes new) }

        // Once it has answered Ok the changes are told, also where they change no contents.
        ensures told { IsTrue (D.is_honest disk.old) → store_failed self.old ≡ false
            → (version : ℕ) → (told : List Told) → (changes : List Change) → (new : Contents)
            → Says NEWEST_VERSION version told (store_contents self.old) (D.history disk.old (D.attached disk.old)).reads
            → changes_said (batch_parts batch) ≡ Some changes
            → after_changes changes (store_contents self.old) ≡ Some new
            → OnOk result (Rests (D.history disk.new (D.attached disk.new)) (SaysMore version told changes new)) }

        ensures works { OnOk result (store_failed self.new ≡ false) }
        ensures fails { OnErr result (store_failed self.new ≡ true) }
        ensures failed_before { store_failed self.old ≡ true → result ≡ Err StoreFault.Disk }
        ensures untouched { IsTrue (D.is_honest disk.old) → store_failed self.old ≡ true
            → Idles (D.history disk.old (D.attached disk.old)) (D.history disk.new (D.attached disk.new)) }
        ensures disk_alone { IfErr result (λ fault. fault ≡ StoreFault.Disk) }
        ensures area { store_area self.new ≡ store_area self.old }
        ensures slots { store_slots self.new ≡ store_slots self.old }
        ensures cause { store_failed self.old ≡ false → HasDiskCause result (D.faults disk.old) (D.faults disk.new) }
        ensures never_falls { D.faults disk.old ≤ D.faults disk.new }
        ensures attached { D.attached disk.new ≡ D.attached disk.old }
        ensures honest { D.is_honest disk.new ≡ D.is_honest disk.old }
    {
        if self.failed {
            return Err(StoreFault::Disk);
        }
        let at = self.log.end() + FRAME_HEAD_BYTES;
        let Ok(()) = self.log.commit(disk, &batch.frame) else {
            self.failed = true;
            return Err(StoreFault::Disk);
        };
        let Batch { changes, .. } = batch;
        put_changes(&mut self.pages, changes, at);
        Ok(())
    }
}
