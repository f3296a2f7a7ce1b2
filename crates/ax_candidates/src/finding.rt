//! The numbers that have a term in each of several unions of ranges.

ghost use Rattle.std.specs.Prelude.{◌≡◌, ◌<◌, ◌≤◌, ℕ, IsTrue, IfOk, IfErr, IfSome, None, true, false, length};
ghost use Rattle.ax_gap.specs.Gaps.{IsRisingList};
ghost use Rattle.ax_delta.specs.Said.{has_number};
ghost use Rattle.ax_pairs.specs.Index.{IsIndex};
ghost use Rattle.ax_pairs.specs.PairSets.{PairSet};
ghost use Rattle.ax_pool.specs.Frames.{free_count};
ghost use Rattle.ax_store.specs.Faults.{HasDiskCause};
ghost use Rattle.ax_store.specs.Store.{AgreesUnlessFailed, store_contents, store_slots, store_failed};
ghost use Rattle.ax_index.specs.Damage.{FailsBy, TellsPart};
ghost use Rattle.ax_index.specs.Reads.{KeepsTaken, Reads};
ghost use Rattle.ax_candidates.specs.Candidates.{AreAllInGrammar, AreCandidates, AreOfAsked};
ghost use Rattle.ax_candidates.specs.Meeting.{AreMetWith, AreOfKindInGrammar, IsBegun, IsLeft, IsNoneOfKind};

use crate::meeting::met_once;
use crate::points::{Kind, kind_of};
use ax_cache::PageCache;
use ax_disk::Disk;
use ax_mean::Items;
use ax_store::{Store, StoreFault};
use ax_term::TermRange;
use std::alloc::Global;

/// The rising numbers with a term in each of the unions, of the set that the term pages hold. Unions of one point, a
/// range of one term, are looked up first, then those of several, then the others, and none more once no number is left.
/// The numbers rise whatever the pages hold and whatever the disk gives. Over an honest disk they are answered only where
/// each part of the pages that were read is in its grammar: those of some unions, of which they have no number that is not
/// answered, and where there is a number those of all.
///
/// `Disk`, `Damaged`: as `pairs_in_some`. `Memory` where there is no room for the pairs of a page or for the numbers.
#[tactic(auto, using(crate::proofs::OfKind::not_none))]
pub fn candidates<D: Disk, C: PageCache>(
    alloc: Global,
    store: &mut Store<C>,
    disk: &mut D,
    unions: &[Items<TermRange>],
) -> Result<Vec<u32>, StoreFault>
    requires some { 0 < length unions.now }
    requires free { 2 ≤ free_count (store_slots store.old) }
    requires agrees { AgreesUnlessFailed C.pages (D.is_honest disk.old) store.old
        (D.history disk.old (D.attached disk.old)) }
    ensures numbers { IsTrue (D.is_honest disk.old) → (set : PairSet) → IsIndex (store_contents store.old).terms set
        → IfOk result (λ numbers. AreCandidates unions.now set numbers.items) }
    ensures rising { IfOk result (λ numbers. IsRisingList numbers.items) }
    ensures met { IsTrue (D.is_honest disk.old) → IfOk result (λ numbers. (number : ℕ) → has_number number numbers.items ≡ true
        → AreAllInGrammar unions.now (store_contents store.old).terms) }
    ensures asked { IsTrue (D.is_honest disk.old)
        → IfOk result (λ numbers. AreOfAsked unions.now (store_contents store.old).terms numbers.items) }
    ensures told { IsTrue (D.is_honest disk.old) → IfErr result (TellsPart store.old) }
    ensures reads { Reads C.pages (D.is_honest disk.old) store.old store.new
        (D.history disk.old (D.attached disk.old)) (D.history disk.new (D.attached disk.new))
        (D.faults disk.old) (D.faults disk.new) }
    ensures others { KeepsTaken (store_slots store.old) (store_slots store.new) }
    ensures fails { FailsBy result (store_failed store.old) (store_failed store.new) }
    ensures cause { store_failed store.old ≡ false → HasDiskCause result (D.faults disk.old) (D.faults disk.new) }
    ensures attached { D.attached disk.new ≡ D.attached disk.old }
    ensures honest { D.is_honest disk.new ≡ D.is_honest disk.old }
{
    let of_point = match met_with(alloc, store, disk, None, unions, Kind::Point) {
        Ok(found) => found,
        Err(fault) => return Err(fault),
    };
    let of_points = match met_with(alloc, store, disk, of_point, unions, Kind::Points) {
        Ok(found) => found,
        Err(fault) => return Err(fault),
    };
    let left = match met_with(alloc, store, disk, of_points, unions, Kind::Ranges) {
        Ok(left) => left,
        Err(fault) => return Err(fault),
    };
    match left {
        Some(numbers) => Ok(numbers.into_vec()),
        None => unreachable!(),
    }
}

/// What is left of the numbers found so far once they are met with each union of the kind.
/// `None` are all numbers, while no union has been looked up.
#[tactic(auto, using(crate::proofs::OfKind::of_no_unions, crate::proofs::OfKind::of_all_unions))]
fn met_with<D: Disk, C: PageCache>(
    alloc: Global,
    store: &mut Store<C>,
    disk: &mut D,
    found: Option<Items<u32>>,
    unions: &[Items<TermRange>],
    kind: Kind,
) -> Result<Option<Items<u32>>, StoreFault>
    requires found { IfSome found IsRisingList }
    requires free { 2 ≤ free_count (store_slots store.old) }
    requires agrees { AgreesUnlessFailed C.pages (D.is_honest disk.old) store.old
        (D.history disk.old (D.attached disk.old)) }
    ensures numbers { IsTrue (D.is_honest disk.old) → (set : PairSet) → IsIndex (store_contents store.old).terms set
        → IfOk result (λ left. AreMetWith kind unions.now found set left) }
    ensures rising { IfOk result (λ left. IfSome left IsRisingList) }
    ensures some { IfOk result (λ left. left ≡ None → (found ≡ None) × IsNoneOfKind kind unions.now) }
    ensures met { IsTrue (D.is_honest disk.old) → IfOk result (λ left. (number : ℕ) → IsLeft left number
        → AreOfKindInGrammar kind unions.now (store_contents store.old).terms) }
    ensures fewer { IfOk result (λ left. (number : ℕ) → IsLeft left number → IsLeft found number) }
    ensures begun { IsTrue (D.is_honest disk.old) → IsBegun found unions.now (store_contents store.old).terms
        → IfOk result (λ left. IsBegun left unions.now (store_contents store.old).terms) }
    ensures told { IsTrue (D.is_honest disk.old) → IfErr result (TellsPart store.old) }
    ensures reads { Reads C.pages (D.is_honest disk.old) store.old store.new
        (D.history disk.old (D.attached disk.old)) (D.history disk.new (D.attached disk.new))
        (D.faults disk.old) (D.faults disk.new) }
    ensures others { KeepsTaken (store_slots store.old) (store_slots store.new) }
    ensures fails { FailsBy result (store_failed store.old) (store_failed store.new) }
    ensures cause { store_failed store.old ≡ false → HasDiskCause result (D.faults disk.old) (D.faults disk.new) }
    ensures attached { D.attached disk.new ≡ D.attached disk.old }
    ensures honest { D.is_honest disk.new ≡ D.is_honest disk.old }
{
    let mut left = found;
    for ranges in unions {
        if kind_of(ranges.as_slice()) != kind {
            continue;
        }
        left = match met_once(alloc, store, disk, left, ranges.as_slice()) {
            Ok(numbers) => Some(numbers),
            Err(fault) => return Err(fault),
        };
    }
    Ok(left)
}
