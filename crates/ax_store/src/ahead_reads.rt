//! Reading texts ahead of a scan of documents in the order of their numbers.

ghost use Rattle.std.specs.Prelude.{◌≡◌, ◌+◌, ◌≤◌, max, IsTrue, IfOk};
ghost use Rattle.std.specs.FinMap as map;
ghost use Rattle.ax_log.specs.Log.{log_end};
ghost use Rattle.ax_store.specs.ReadAhead.{AgreesAheadUnlessFailed, IsAhead, ahead_text};
ghost use Rattle.ax_store.specs.Reads.{FailsOrWantsMemory, ReadsStore};
ghost use Rattle.ax_store.specs.Store.{store_contents, store_slots, store_failed};

use crate::fault::StoreFault;
use crate::read_ahead::ReadAhead;
use crate::slot_reads::text_place;
use crate::store::Store;
use crate::together::{Stretch, WINDOW_BYTES};
use ax_base::Steps;
use ax_cache::PageCache;
use ax_disk::Disk;
use std::sync::ledger::Ledger;

impl<C: PageCache> Store<C> {
    /// Finds the text of a document, which `ahead` shows from then on, and answers whether the number
    /// is held. Where the texts of the next numbers lie together with it, at most 8 KiB apart, and it lies
    /// together with the text that was found last, they come from one read: of 16 KiB at first, or of four
    /// times the first text where that is more, and then of four times the read before, up to 256 KiB. Else it is read alone, and so is the first. So a
    /// scan in the order of numbers reads the disk once for many texts, and a query for one document reads
    /// its text and no more. The cache is not asked and not changed. No step is counted: this is for texts
    /// that are read again to be printed.
    ///
    /// `Disk` where a read failed or the store has failed before. `Memory` where there is none for
    /// what is read; the text shown is then the one before.
    pub fn read_ahead<D: Disk>(
        &mut self,
        disk: &mut D,
        number: u32,
        ahead: &mut ReadAhead,
    ) -> Result<bool, StoreFault>
        requires agrees { AgreesAheadUnlessFailed C.pages (D.is_honest disk.old) self.old ahead.old
            (D.history disk.old (D.attached disk.old)) }
        ensures text { IsTrue (D.is_honest disk.old)
            → IfOk result (λ found. IsAhead (map.get (store_contents self.old).documents number) found (ahead_text ahead.new)) }
        ensures found { IfOk result (λ found. found ≡ map.contains_key (store_contents self.old).documents number) }
        ensures agrees { AgreesAheadUnlessFailed C.pages (D.is_honest disk.old) self.new ahead.new
            (D.history disk.new (D.attached disk.new)) }
        ensures reads { ReadsStore C.pages (D.is_honest disk.old) self.old self.new
            (D.history disk.old (D.attached disk.old)) (D.history disk.new (D.attached disk.new))
            (D.faults disk.old) (D.faults disk.new) }
        ensures cache { self.new.cache ≡ self.old.cache }
        ensures slots { store_slots self.new ≡ store_slots self.old }
        ensures fails { FailsOrWantsMemory result (store_failed self.old) (store_failed self.new)
            (D.faults disk.old) (D.faults disk.new) }
        ensures kept { result ≡ Err StoreFault.Memory → ahead_text ahead.new ≡ ahead_text ahead.old }
        ensures attached { D.attached disk.new ≡ D.attached disk.old }
        ensures honest { D.is_honest disk.new ≡ D.is_honest disk.old }
    {
        if self.failed {
            return Err(StoreFault::Disk);
        }
        let Some(part) = self.pages.document(number) else {
            return Ok(false);
        };
        let (from, len) = text_place(part);
        if ahead.show(from, len) {
            return Ok(true);
        }
        let span = self.span_from(ahead, number, from, len);
        let Ok(()) = ahead.make_room(span) else {
            return Err(StoreFault::Memory);
        };
        let Ok(()) = ahead.fill(&self.log, disk, from, len, span) else {
            self.failed = true;
            return Err(StoreFault::Disk);
        };
        Ok(true)
    }
}

impl<C: PageCache> Store<C> {
    /// The same for who goes over the documents to evaluate them: it takes one step of work, whatever it
    /// answers.
    pub fn fetch_ahead<D: Disk, L: Ledger>(
        &mut self,
        disk: &mut D,
        number: u32,
        ahead: &mut ReadAhead,
        steps: &mut Steps<L>,
    ) -> Result<bool, StoreFault>
        requires agrees { AgreesAheadUnlessFailed C.pages (D.is_honest disk.old) self.old ahead.old
            (D.history disk.old (D.attached disk.old)) }
        ensures text { IsTrue (D.is_honest disk.old)
            → IfOk result (λ found. IsAhead (map.get (store_contents self.old).documents number) found (ahead_text ahead.new)) }
        ensures found { IfOk result (λ found. found ≡ map.contains_key (store_contents self.old).documents number) }
        ensures agrees { AgreesAheadUnlessFailed C.pages (D.is_honest disk.old) self.new ahead.new
            (D.history disk.new (D.attached disk.new)) }
        ensures reads { ReadsStore C.pages (D.is_honest disk.old) self.old self.new
            (D.history disk.old (D.attached disk.old)) (D.history disk.new (D.attached disk.new))
            (D.faults disk.old) (D.faults disk.new) }
        ensures cache { self.new.cache ≡ self.old.cache }
        ensures slots { store_slots self.new ≡ store_slots self.old }
        ensures fails { FailsOrWantsMemory result (store_failed self.old) (store_failed self.new)
            (D.faults disk.old) (D.faults disk.new) }
        ensures kept { result ≡ Err StoreFault.Memory → ahead_text ahead.new ≡ ahead_text ahead.old }
        ensures attached { D.attached disk.new ≡ D.attached disk.old }
        ensures honest { D.is_honest disk.new ≡ D.is_honest disk.old }
        ensures ticked { steps.new ≡ steps.old + 1 }
    {
        steps.tick();
        self.read_ahead(disk, number, ahead)
    }
}

impl<C> Store<C> {
    /// How many bytes to read for a text: its own, or where it is the next one of a scan also those of
    /// the next numbers that lie together with it, at most a window. The log has them all where it has the text.
    fn span_from(&self, ahead: &ReadAhead, number: u32, from: u64, len: usize) -> usize
        ensures least { len ≤ result }
        ensures most { result ≤ max len WINDOW_BYTES }
        ensures within { from + len ≤ log_end self.now.log → from + result ≤ log_end self.now.log }
    {
        if !ahead.is_next(from, len) {
            return len;
        }
        let left = self.log.end().saturating_sub(from);
        let stretch = self.pages.together(number, Stretch::of_text(from, len));
        (stretch.min(left).min(ahead.reach()) as usize).max(len)
    }
}
