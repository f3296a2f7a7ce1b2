//! Reading parts and documents into slots.

ghost use Rattle.std.specs.Prelude.{◌≡◌, ◌+◌, ◌-◌, ◌^◌, ◌<◌, ◌≤◌, min, ℕ, List, IsTrue, IfOk, IfSome, OnOk, length, take, drop, option_map, Some, None};
ghost use Rattle.std.specs.FinMap as map;
ghost use Rattle.ax_faults.specs.Faults.{HasCause};
ghost use Rattle.ax_disk.specs.model.Calls.{Idles};
ghost use Rattle.ax_pages.specs.Area.{frames_bytes};
ghost use Rattle.ax_pages.specs.Contents.{parts_of, term_page, term_parts};
ghost use Rattle.ax_log.specs.Log.{log_area, log_end, log_generation};
ghost use Rattle.ax_log.specs.Agreement as logged;
ghost use Rattle.ax_pool.specs.Frames.{IsTaken, bytes_at};
ghost use Rattle.ax_store.specs.Cached.{HoldsParts};
ghost use Rattle.ax_store.specs.Rows.{payload_kept, offset_kept};
ghost use Rattle.ax_store.specs.Slots.{IsSlotOf, AreOthersSame, IsRead, IsFetched, part_at, term_part, ticks_of};
ghost use Rattle.ax_store.specs.Reads.{FailsAlone, FailsOrWantsMemory, ReadsStore};
ghost use Rattle.ax_store.specs.Store.{AgreesUnlessFailed, store_contents, store_parts, store_slots, store_failed};

use crate::cached::read_bytes;
use crate::fault::StoreFault;
use crate::kept_part::{KeptPart, PART_HEAD_BYTES};
use crate::store::{Store, StoreFrames, StoreSlot};
use ax_base::Steps;
use ax_cache::PageCache;
use ax_disk::{Disk, DiskFailed};
use ax_log::Log;
use ax_pages::Page;
use ax_pool::Pool;
use std::alloc::{AllocError, Global};
use std::sync::ledger::Ledger;

impl<C: PageCache> Store<C> {
    /// Reads a part of a page into the front of a slot, and answers how many bytes it has. For a
    /// document it counts one step. Its only error is `Disk`, where a read failed or the store has
    /// failed before.
    pub fn read_part<D: Disk, L: Ledger>(
        &mut self,
        disk: &mut D,
        page: Page,
        i: usize,
        slot: &mut StoreSlot,
        steps: &mut Steps<L>,
    ) -> Result<usize, StoreFault>
        requires part { i < length (parts_of page (store_parts self.old)) }
        requires slot { IsSlotOf self.old slot.old }
        requires agrees { AgreesUnlessFailed C.pages (D.is_honest disk.old) self.old
            (D.history disk.old (D.attached disk.old)) }
        ensures read { IsTrue (D.is_honest disk.old)
            → IfOk result (IsRead (part_at page i (store_parts self.old)) (store_slots self.new) slot.old.number) }
        ensures len { IfOk result (λ len. len ≡ length (part_at page i (store_parts self.old))) }
        ensures most { IfOk result (λ len. len ≤ 65536) }
        ensures others { AreOthersSame slot.old.number (store_slots self.old) (store_slots self.new) }
        ensures reads { ReadsStore C.pages (D.is_honest disk.old) self.old self.new
            (D.history disk.old (D.attached disk.old)) (D.history disk.new (D.attached disk.new))
            (D.faults disk.old) (D.faults disk.new) }
        ensures fails { FailsAlone result (store_failed self.old) (store_failed self.new)
            (D.faults disk.old) (D.faults disk.new) }
        ensures slot { slot.new ≡ slot.old }
        ensures ticked { steps.new ≡ steps.old + ticks_of page }
        ensures attached { D.attached disk.new ≡ D.attached disk.old }
        ensures honest { D.is_honest disk.new ≡ D.is_honest disk.old }
    {
        count(page, steps);
        self.read_any(disk, page, i, slot)
    }

    /// Reads a part of a term page as `read_part` does, and counts no step.
    pub fn read_term<D: Disk>(
        &mut self,
        disk: &mut D,
        page: u32,
        i: usize,
        slot: &mut StoreSlot,
    ) -> Result<usize, StoreFault>
        requires part { i < length (term_parts (term_page page (store_contents self.old).terms)) }
        requires slot { IsSlotOf self.old slot.old }
        requires agrees { AgreesUnlessFailed C.pages (D.is_honest disk.old) self.old
            (D.history disk.old (D.attached disk.old)) }
        ensures read { IsTrue (D.is_honest disk.old)
            → IfOk result (IsRead (term_part page i (store_contents self.old).terms) (store_slots self.new) slot.old.number) }
        ensures len { IfOk result (λ len. len ≡ length (term_part page i (store_contents self.old).terms)) }
        ensures most { IfOk result (λ len. len ≤ 65536) }
        ensures others { AreOthersSame slot.old.number (store_slots self.old) (store_slots self.new) }
        ensures reads { ReadsStore C.pages (D.is_honest disk.old) self.old self.new
            (D.history disk.old (D.attached disk.old)) (D.history disk.new (D.attached disk.new))
            (D.faults disk.old) (D.faults disk.new) }
        ensures fails { FailsAlone result (store_failed self.old) (store_failed self.new)
            (D.faults disk.old) (D.faults disk.new) }
        ensures slot { slot.new ≡ slot.old }
        ensures attached { D.attached disk.new ≡ D.attached disk.old }
        ensures honest { D.is_honest disk.new ≡ D.is_honest disk.old }
    {
        self.read_any(disk, Page::Term(page), i, slot)
    }

    /// Reads a part of a page into the front of a slot.
    fn read_any<D: Disk>(
        &mut self,
        disk: &mut D,
        page: Page,
        i: usize,
        slot: &mut StoreSlot,
    ) -> Result<usize, StoreFault>
        requires part { i < length (parts_of page (store_parts self.old)) }
        requires slot { IsSlotOf self.old slot.old }
        requires agrees { AgreesUnlessFailed C.pages (D.is_honest disk.old) self.old
            (D.history disk.old (D.attached disk.old)) }
        ensures read { IsTrue (D.is_honest disk.old)
            → IfOk result (IsRead (part_at page i (store_parts self.old)) (store_slots self.new) slot.old.number) }
        ensures len { IfOk result (λ len. len ≡ length (part_at page i (store_parts self.old))) }
        ensures most { IfOk result (λ len. len ≤ 65536) }
        ensures others { AreOthersSame slot.old.number (store_slots self.old) (store_slots self.new) }
        ensures reads { ReadsStore C.pages (D.is_honest disk.old) self.old self.new
            (D.history disk.old (D.attached disk.old)) (D.history disk.new (D.attached disk.new))
            (D.faults disk.old) (D.faults disk.new) }
        ensures fails { FailsAlone result (store_failed self.old) (store_failed self.new)
            (D.faults disk.old) (D.faults disk.new) }
        ensures slot { slot.new ≡ slot.old }
        ensures attached { D.attached disk.new ≡ D.attached disk.old }
        ensures honest { D.is_honest disk.new ≡ D.is_honest disk.old }
    {
        if self.failed {
            return Err(StoreFault::Disk);
        }
        let Some(part) = self.pages.part(page, i) else {
            unreachable!()
        };
        let (from, len) = (part.at.saturating_add(PART_HEAD_BYTES), part.len as usize);
        let Ok(()) = load(
            &mut self.pool,
            &self.log,
            &mut self.cache,
            disk,
            from,
            slot,
            len,
        ) else {
            self.failed = true;
            return Err(StoreFault::Disk);
        };
        Ok(len)
    }

    /// Reads the text of a document into the front of a slot, and answers how many bytes it has.
    /// `None` exactly where the number is not held. It counts one step, and its only error is
    /// `Disk`, where a read failed or the store has failed before.
    pub fn fetch<D: Disk, L: Ledger>(
        &mut self,
        disk: &mut D,
        number: u32,
        slot: &mut StoreSlot,
        steps: &mut Steps<L>,
    ) -> Result<Option<usize>, StoreFault>
        requires slot { IsSlotOf self.old slot.old }
        requires agrees { AgreesUnlessFailed C.pages (D.is_honest disk.old) self.old
            (D.history disk.old (D.attached disk.old)) }
        ensures text { IsTrue (D.is_honest disk.old)
            → IfOk result (IsFetched (map.get (store_contents self.old).documents number) (store_slots self.new) slot.old.number) }
        ensures len { IfOk result (λ found. found ≡ option_map (λ document. length document.text) (map.get (store_contents self.old).documents number)) }
        ensures most { IfOk result (λ found. IfSome found (λ len. len ≤ 65536)) }
        ensures others { AreOthersSame slot.old.number (store_slots self.old) (store_slots self.new) }
        ensures reads { ReadsStore C.pages (D.is_honest disk.old) self.old self.new
            (D.history disk.old (D.attached disk.old)) (D.history disk.new (D.attached disk.new))
            (D.faults disk.old) (D.faults disk.new) }
        ensures fails { FailsAlone result (store_failed self.old) (store_failed self.new)
            (D.faults disk.old) (D.faults disk.new) }
        ensures slot { slot.new ≡ slot.old }
        ensures ticked { steps.new ≡ steps.old + 1 }
        ensures attached { D.attached disk.new ≡ D.attached disk.old }
        ensures honest { D.is_honest disk.new ≡ D.is_honest disk.old }
    {
        steps.tick();
        self.read_text(disk, number, slot)
    }

    /// Reads the text of a document as `fetch` does, and counts no step.
    pub fn read_text<D: Disk>(
        &mut self,
        disk: &mut D,
        number: u32,
        slot: &mut StoreSlot,
    ) -> Result<Option<usize>, StoreFault>
        requires slot { IsSlotOf self.old slot.old }
        requires agrees { AgreesUnlessFailed C.pages (D.is_honest disk.old) self.old
            (D.history disk.old (D.attached disk.old)) }
        ensures text { IsTrue (D.is_honest disk.old)
            → IfOk result (IsFetched (map.get (store_contents self.old).documents number) (store_slots self.new) slot.old.number) }
        ensures len { IfOk result (λ found. found ≡ option_map (λ document. length document.text) (map.get (store_contents self.old).documents number)) }
        ensures most { IfOk result (λ found. IfSome found (λ len. len ≤ 65536)) }
        ensures others { AreOthersSame slot.old.number (store_slots self.old) (store_slots self.new) }
        ensures reads { ReadsStore C.pages (D.is_honest disk.old) self.old self.new
            (D.history disk.old (D.attached disk.old)) (D.history disk.new (D.attached disk.new))
            (D.faults disk.old) (D.faults disk.new) }
        ensures fails { FailsAlone result (store_failed self.old) (store_failed self.new)
            (D.faults disk.old) (D.faults disk.new) }
        ensures slot { slot.new ≡ slot.old }
        ensures attached { D.attached disk.new ≡ D.attached disk.old }
        ensures honest { D.is_honest disk.new ≡ D.is_honest disk.old }
    {
        if self.failed {
            return Err(StoreFault::Disk);
        }
        let Some(part) = self.pages.document(number) else {
            return Ok(None);
        };
        let (from, len) = text_place(part);
        let Ok(()) = load(
            &mut self.pool,
            &self.log,
            &mut self.cache,
            disk,
            from,
            slot,
            len,
        ) else {
            self.failed = true;
            return Err(StoreFault::Disk);
        };
        Ok(Some(len))
    }

    /// The text of a document, as a vector of the caller's own. `None` exactly where the number is not
    /// held. It counts one step. `Disk` where a read failed or the store has failed before; `Memory`
    /// where there is no room for the text. It serves a caller that has no slot and no `ReadAhead`,
    /// as one that wants a single document; queries read texts by `read_ahead`.
    pub fn fetch_text<D: Disk, L: Ledger>(
        &mut self,
        alloc: Global,
        disk: &mut D,
        number: u32,
        steps: &mut Steps<L>,
    ) -> Result<Option<Vec<u8>>, StoreFault>
        requires agrees { AgreesUnlessFailed C.pages (D.is_honest disk.old) self.old
            (D.history disk.old (D.attached disk.old)) }
        ensures text { IsTrue (D.is_honest disk.old) → IfOk result (λ found. option_map (λ text. text.items) found
            ≡ option_map (λ document. document.text) (map.get (store_contents self.old).documents number)) }
        ensures len { IfOk result (λ found. option_map (λ text. length text.items) found
            ≡ option_map (λ document. length document.text) (map.get (store_contents self.old).documents number)) }
        ensures reads { ReadsStore C.pages (D.is_honest disk.old) self.old self.new
            (D.history disk.old (D.attached disk.old)) (D.history disk.new (D.attached disk.new))
            (D.faults disk.old) (D.faults disk.new) }
        ensures slots { store_slots self.new ≡ store_slots self.old }
        ensures ticked { steps.new ≡ steps.old + 1 }
        ensures fails { FailsOrWantsMemory result (store_failed self.old) (store_failed self.new)
            (D.faults disk.old) (D.faults disk.new) }
        ensures attached { D.attached disk.new ≡ D.attached disk.old }
        ensures honest { D.is_honest disk.new ≡ D.is_honest disk.old }
    {
        steps.tick();
        if self.failed {
            return Err(StoreFault::Disk);
        }
        let Some(part) = self.pages.document(number) else {
            return Ok(None);
        };
        let (from, len) = text_place(part);
        let Ok(mut text) = blank(alloc, len) else {
            return Err(StoreFault::Memory);
        };
        let Ok(()) = read_bytes(&self.log, &mut self.cache, disk, from, &mut text, len) else {
            self.failed = true;
            return Err(StoreFault::Disk);
        };
        Ok(Some(text))
    }
}

/// Where the text of a document stands in the area, and how many bytes it has.
pub(crate) fn text_place(part: &KeptPart) -> (u64, usize)
    ensures from { result.0 ≡ min (offset_kept part.now + (9 + min (length (payload_kept part.now)) 1)) (2 ^ 64 - 1) }
    ensures len { result.1 ≡ length (payload_kept part.now) - min (length (payload_kept part.now)) 1 }
    ensures most { result.1 ≤ 65536 }
{
    // The number of the policy stands in front of the text.
    let skip = part.len.min(1);
    let from = part.at.saturating_add(PART_HEAD_BYTES + u64::from(skip));
    (from, (part.len - skip) as usize)
}

/// So many bytes, all 0.
fn blank(alloc: Global, len: usize) -> Result<Vec<u8>, AllocError>
    ensures { IfOk result (λ bytes. length bytes.items ≡ len) }
{
    vec![in alloc; 0; len]
}

/// Counts one step where the page is of a document.
fn count<L: Ledger>(page: Page, steps: &mut Steps<L>)
    ensures { steps.new ≡ steps.old + ticks_of page }
{
    match page {
        Page::Document(_) => steps.tick(),
        Page::Meta | Page::Policy(_) | Page::Term(_) => {}
    }
}

/// Reads so many bytes of the log's frames, from an offset on, into the front of a slot.
fn load<D: Disk, C: PageCache>(
    pool: &mut Pool<StoreFrames>,
    log: &Log,
    cache: &mut C,
    disk: &mut D,
    from: u64,
    slot: &mut StoreSlot,
    len: usize,
) -> Result<(), DiskFailed>
    requires slot { IsTaken pool.old slot.old.number }
    requires most { len ≤ 65536 }
    ensures read { IsTrue (D.is_honest disk.old) → (frames : List (List ℕ))
        → logged.Agrees log.now frames (D.history disk.old (D.attached disk.old))
        → HoldsParts (C.pages cache.old) (log_area log.now) (log_generation log.now) (frames_bytes frames)
        → from + len ≤ log_end log.now
        → OnOk result (take len (bytes_at pool.new slot.old.number) ≡ take len (drop from (frames_bytes frames))) }
    ensures caches { IsTrue (D.is_honest disk.old) → (frames : List (List ℕ))
        → logged.Agrees log.now frames (D.history disk.old (D.attached disk.old))
        → HoldsParts (C.pages cache.old) (log_area log.now) (log_generation log.now) (frames_bytes frames)
        → from + len ≤ log_end log.now
        → HoldsParts (C.pages cache.new) (log_area log.now) (log_generation log.now) (frames_bytes frames) }
    ensures others { AreOthersSame slot.old.number pool.old pool.new }
    ensures slot { slot.new ≡ slot.old }
    ensures lists { IsTrue (D.is_honest disk.old)
        → Idles (D.history disk.old (D.attached disk.old)) (D.history disk.new (D.attached disk.new)) }
    ensures cause { HasCause result (D.faults disk.old) (D.faults disk.new) }
    ensures uncounted { OnOk result (D.faults disk.new ≡ D.faults disk.old) }
    ensures attached { D.attached disk.new ≡ D.attached disk.old }
    ensures honest { D.is_honest disk.new ≡ D.is_honest disk.old }
{
    read_bytes(log, cache, disk, from, pool.bytes_mut(slot), len)
}
