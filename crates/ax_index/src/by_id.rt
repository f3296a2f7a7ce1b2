//! The number under which the document of an id stands.

ghost use Rattle.std.specs.Prelude.{◌≡◌, ◌≤◌, [], ◌∷◌, ◌++◌, IsTrue, IfOk, IfErr, OnOk, false, slice_get};
ghost use Rattle.ax_pairs.specs.Index.{IsIndex};
ghost use Rattle.ax_pairs.specs.PairSets.{PairSet};
ghost use Rattle.ax_pool.specs.Frames.{free_count};
ghost use Rattle.ax_store.specs.Faults.{HasDiskCause};
ghost use Rattle.ax_store.specs.Store.{AgreesUnlessFailed, store_contents, store_slots, store_failed};
ghost use Rattle.ax_index.specs.ById.{IsNumberOf, id_range};
ghost use Rattle.ax_index.specs.Damage.{FailsBy, TellsPart};
ghost use Rattle.ax_index.specs.Grammar.{AreInGrammar};
ghost use Rattle.ax_index.specs.Reads.{KeepsTaken, Reads};

use crate::numbers::pairs_in;
use ax_cache::PageCache;
use ax_disk::Disk;
use ax_store::{Store, StoreFault};
use ax_term::{Bytes, Memory, TermRange, id_term};
use std::alloc::Global;

/// The number of the document of an id, by the set that the term pages hold: the least number that has the
/// id's term. `None` exactly where no number has it. It reads the pages that may have that term, each with its
/// parts; over an honest disk it answers only where each part of these pages is in its grammar.
///
/// `Disk`, `Damaged`: as `has`. `Memory` where there is no room for the term, the pairs of a page or the
/// numbers.
pub fn number_of<D: Disk, C: PageCache>(
    alloc: Global,
    store: &mut Store<C>,
    disk: &mut D,
    id: &[u8],
) -> Result<Option<u32>, StoreFault>
    requires free { 2 ≤ free_count (store_slots store.old) }
    requires agrees { AgreesUnlessFailed C.pages (D.is_honest disk.old) store.old
        (D.history disk.old (D.attached disk.old)) }
    ensures number { IsTrue (D.is_honest disk.old) → (set : PairSet) → IsIndex (store_contents store.old).terms set
        → IfOk result (IsNumberOf id.now set) }
    ensures met { IsTrue (D.is_honest disk.old) → OnOk result (AreInGrammar (id_range id.now ∷ []) (store_contents store.old).terms) }
    ensures told { IsTrue (D.is_honest disk.old) → IfErr result (TellsPart store.old) }
    ensures reads { Reads C.pages (D.is_honest disk.old) store.old store.new
        (D.history disk.old (D.attached disk.old)) (D.history disk.new (D.attached disk.new))
        (D.faults disk.old) (D.faults disk.new) }
    ensures others { KeepsTaken (store_slots store.old) (store_slots store.new) }
    ensures fails { FailsBy result (store_failed store.old) (store_failed store.new) }
    ensures cause { store_failed store.old ≡ false → HasDiskCause result (D.faults disk.old) (D.faults disk.new) }
    ensures attached { D.attached disk.new ≡ D.attached disk.old }
    ensures honest { D.is_honest disk.new ≡ D.is_honest disk.old }
{
    let Ok(range) = only_term(alloc, id) else {
        return Err(StoreFault::Memory);
    };
    let numbers = match pairs_in(alloc, store, disk, &range) {
        Ok(numbers) => numbers,
        Err(fault) => return Err(fault),
    };
    Ok(first_of(numbers.as_slice()))
}

/// The range in which the term of an id is alone.
fn only_term(alloc: Global, id: &[u8]) -> Result<TermRange, Memory>
    ensures { IfOk result (λ range. range ≡ id_range id.now) }
{
    let from = id_term(alloc, id)?;
    let below = with_zero(alloc, from.as_slice())?;
    Ok(TermRange {
        from: Bytes::from_vec(from),
        below: Bytes::from_vec(below),
    })
}

/// A term with a byte 0 behind it.
fn with_zero(alloc: Global, term: &[u8]) -> Result<Vec<u8>, Memory>
    ensures { IfOk result (λ longer. longer.items ≡ term.now ++ 0 ∷ []) }
{
    let mut longer = Vec::with_capacity(alloc, term.len() + 1)?;
    longer.extend_from_slice(term)?;
    longer.push(0)?;
    Ok(longer)
}

/// The first of some numbers.
fn first_of(numbers: &[u32]) -> Option<u32>
    ensures { result ≡ slice_get numbers.now 0 }
{
    numbers.first().copied()
}
