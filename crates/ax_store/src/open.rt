//! Opening a store.

ghost use Rattle.std.specs.Prelude.{◌≡◌, ℕ, List, IsTrue, IfOk, OnOk, false};
ghost use Rattle.ax_disk.specs.declared.extent.Extent.TheVariants.{Root};
ghost use Rattle.ax_disk.specs.model.Stays.{Rests, SinceBarrier};
ghost use Rattle.ax_area.specs.Contents.{Contents};
ghost use Rattle.ax_area.specs.Image.{IsDamaged, IsFresh, IsNewer, Says};
ghost use Rattle.ax_area.specs.Told.{Told};
ghost use Rattle.ax_pages.specs.Area.{extent_number};
ghost use Rattle.ax_pages.specs.declared.numbers.TheConstants.{NEWEST_VERSION};
ghost use Rattle.ax_log.specs.Opening.{Keeps};
ghost use Rattle.ax_store.specs.Faults.{IsRefused, HasDiskCause};
ghost use Rattle.std.specs.FinMap as map;
ghost use Rattle.ax_store.specs.Slots.{HasAllFree};
ghost use Rattle.ax_store.specs.Store.{TellsStore, IsAnswer, IsAnswerUnlessDisk, store_failed};

use crate::fault::{StoreFault, store_fault};
use crate::load::load;
use crate::store::Store;
use ax_cache::PageCache;
use ax_disk::{Disk, Extent};
use ax_log::Log;
use ax_pool::Pool;
use std::alloc::Global;

/// How many slots a store has.
const SLOTS: u32 = 64;

impl<C: PageCache + Drop> Store<C> {
    /// Opens the store attached, or forms one where it is fresh.
    ///
    /// It begins with a sync, the barrier: until that succeeds a crash leaves what it might have left
    /// before, and from then on the contents that reads gave. `Damaged` is answered where root, frames
    /// or parts are outside the format, and `Newer` where the root slot that counts names a later
    /// version; both leave the store's lists as they were. At `Disk` or
    /// `Memory` a fresh store may have been formed. At Ok all slots are free.
    pub fn open_store<D: Disk>(
        alloc: Global,
        disk: &mut D,
        cache: C,
    ) -> Result<Store<C>, StoreFault>
        requires empty { C.pages cache ≡ map.empty }
        ensures tells { IsTrue (D.is_honest disk.old)
            → TellsStore C.pages result (D.history disk.old (D.attached disk.old)).reads (D.history disk.new (D.attached disk.new)) }

        // Wherever the store is damaged, or of a later version, that is the answer. Over a damaged root, and over a
        // later version, no memory is used.
        ensures damaged { IsTrue (D.is_honest disk.old) → (extent : Extent) → (at : ℕ)
            → IsDamaged NEWEST_VERSION (D.history disk.old (D.attached disk.old)).reads extent at
            → IsAnswer (StoreFault.Damaged (extent_number extent) at) result }
        ensures damaged_root { IsTrue (D.is_honest disk.old) → (at : ℕ)
            → IsDamaged NEWEST_VERSION (D.history disk.old (D.attached disk.old)).reads Root at
            → IsAnswerUnlessDisk (StoreFault.Damaged (extent_number Root) at) result }
        ensures newer { IsTrue (D.is_honest disk.old) → (version : ℕ)
            → IsNewer NEWEST_VERSION version (D.history disk.old (D.attached disk.old)).reads
            → IsAnswerUnlessDisk (StoreFault.Newer version) result }

        ensures slots { IfOk result HasAllFree }
        ensures works { IfOk result (λ store. store_failed store ≡ false) }
        ensures refused { IsTrue (D.is_honest disk.old) → IsRefused result
            → Keeps (D.history disk.old (D.attached disk.old)) (D.history disk.new (D.attached disk.new)) }

        // Whatever is answered, only a fresh store is changed.
        ensures unchanged { IsTrue (D.is_honest disk.old)
            → (IsFresh (D.history disk.old (D.attached disk.old)).reads → ⊥)
            → Keeps (D.history disk.old (D.attached disk.old)) (D.history disk.new (D.attached disk.new)) }

        // A crash at any moment since the barrier, and after the call, leaves what was told there and its contents.
        ensures any_moment { IsTrue (D.is_honest disk.old) → (version : ℕ) → (told : List Told) → (contents : Contents)
            → Says NEWEST_VERSION version told contents (D.history disk.old (D.attached disk.old)).reads
            → SinceBarrier (D.history disk.old (D.attached disk.old)) (D.history disk.new (D.attached disk.new))
            (Says NEWEST_VERSION version told contents) }
        ensures kept { IsTrue (D.is_honest disk.old) → (version : ℕ) → (told : List Told) → (contents : Contents)
            → Says NEWEST_VERSION version told contents (D.history disk.old (D.attached disk.old)).reads
            → OnOk result (Rests (D.history disk.new (D.attached disk.new)) (Says NEWEST_VERSION version told contents)) }

        ensures cause { HasDiskCause result (D.faults disk.old) (D.faults disk.new) }
        ensures attached { D.attached disk.new ≡ D.attached disk.old }
        ensures honest { D.is_honest disk.new ≡ D.is_honest disk.old }
    {
        let log = match Log::open_log(alloc, disk) {
            Ok(log) => log,
            Err(fault) => return Err(store_fault(fault)),
        };
        let pages = match load(alloc, disk, &log) {
            Ok(pages) => pages,
            Err(fault) => return Err(fault),
        };
        match Pool::make(alloc, SLOTS) {
            Ok(pool) => Ok(Store {
                log,
                pages,
                pool,
                cache,
                failed: false,
            }),
            Err(_) => Err(StoreFault::Memory),
        }
    }
}
