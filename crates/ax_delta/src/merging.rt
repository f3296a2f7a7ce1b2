//! Merging the pairs of a page with a delta: its changes are made one after another, in place.

ghost use Rattle.std.specs.Prelude.{◌≡◌, ◌↔◌, ◌≤◌, ◌<◌, ◌∷◌, List, Some, true, false, IfOk, OnOk, IfSome, IsTrue, length, drop, slice_get};
ghost use Rattle.std.specs.declared.cmp.Ordering.TheVariants.{Equal, Greater};
ghost use Rattle.ax_pair.specs.declared.pair.Pair.{Pair};
ghost use Rattle.ax_pair.specs.Order.{Rise};
ghost use Rattle.ax_delta.specs.declared.change.Change.{Change};
ghost use Rattle.ax_delta.specs.Changes.{changes_of};
ghost use Rattle.ax_delta.specs.Merge.{IsMerge};
ghost use Rattle.ax_delta.specs.Pass.{first_cmp, merged, merged_from, IsMadeAt, IsNotPassed, IsPlaceOf};
ghost use Rattle.ax_delta.specs.Payload.{AreTermChanges};
ghost use Rattle.ax_delta.specs.View.{IsReady, changes_left};

use crate::changes_left::ChangesLeft;
use crate::delta::Delta;
use crate::out_of_memory::Memory;
use ax_pair_list::PairList;
use std::alloc::Global;
use std::cmp::Ordering;

/// The pairs that a page has after the delta, of those that it had before, which rise. A pair that
/// is added and was there stays, once; one that is dropped and was not there stays away. It costs a search by halves
/// for each change, and not a pass over the pairs. `Memory` where there is none for them.
pub fn merge(alloc: Global, pairs: PairList, delta: &Delta<'_>) -> Result<PairList, Memory>
    requires { Rise pairs }
    ensures { IfOk result (λ after. IsMerge pairs delta.now after) }
{
    let after = passed(alloc, pairs, delta)?;
    Ok(after)
}

/// The same, by the changes.
fn passed(alloc: Global, pairs: PairList, delta: &Delta<'_>) -> Result<PairList, Memory>
    requires { Rise pairs }
    ensures are { OnOk result (AreTermChanges delta.now) }
    ensures made { IfOk result (λ after. after ≡ merged pairs (changes_of delta.now)) }
{
    let mut changes = delta.changes(alloc)?;
    let mut after = pairs;
    let mut at = 0;
    while !changes.is_end() {
        let place = place_from(&after, &changes, at);
        at = make_first(&mut after, &mut changes, place)?;
    }
    Ok(after)
}

/// The place, from one on, of the first pair that is not before that of the first change.
fn place_from(pairs: &PairList, changes: &ChangesLeft<'_>, from: usize) -> usize
    requires ready { IsReady changes.now }
    requires within { from ≤ length pairs.now }
    requires rise { Rise (drop from pairs.now) }
    ensures within { result ≤ length pairs.now }
    ensures rise { Rise (drop result pairs.now) }
    ensures same { merged_from result pairs.now (changes_left changes.now) ≡ merged_from from pairs.now (changes_left changes.now) }
    ensures not_passed { IfSome (slice_get pairs.now result) (IsNotPassed (changes_left changes.now)) }
{
    let mut low = from;
    let mut high = pairs.len();
    while low < high {
        let middle = low + (high - low) / 2;
        if is_passed(pairs, changes, middle) {
            low = middle + 1;
        } else {
            high = middle;
        }
    }
    low
}

/// Is the pair at a place before that of the first change?
fn is_passed(pairs: &PairList, changes: &ChangesLeft<'_>, at: usize) -> bool
    requires ready { IsReady changes.now }
    requires within { at < length pairs.now }
    ensures { IfSome (slice_get pairs.now at) (λ pair. IsTrue result ↔ (first_cmp (changes_left changes.now) pair ≡ Some Greater)) }
{
    let (term, number) = pairs.pair(at);
    changes.cmp_first(term, number) == Some(Ordering::Greater)
}

/// Makes the first change at its place, and answers the place from which the others are made.
fn make_first(
    pairs: &mut PairList,
    changes: &mut ChangesLeft<'_>,
    at: usize,
) -> Result<usize, Memory>
    requires ready { IsReady changes.old }
    requires within { at ≤ length pairs.old }
    requires rise { Rise (drop at pairs.old) }
    requires not_passed { IfSome (slice_get pairs.old at) (IsNotPassed (changes_left changes.old)) }
    ensures ready { OnOk result (IsReady changes.new) }
    ensures rest { OnOk result (changes_left changes.new ≡ drop 1 (changes_left changes.old)) }
    ensures within { IfOk result (λ place. place ≤ length pairs.new) }
    ensures rise { IfOk result (λ place. Rise (drop place pairs.new)) }
    ensures made { IfOk result (λ place. merged_from place pairs.new (changes_left changes.new) ≡ merged_from at pairs.old (changes_left changes.old)) }
{
    let Some((add, number)) = changes.first() else {
        return Ok(at);
    };
    let met = is_met(pairs, changes, at);
    let place = make_at(pairs, at, met, add, changes.term.as_slice(), number)?;
    changes.take()?;
    Ok(place)
}

/// Is the pair at a place that of the first change?
fn is_met(pairs: &PairList, changes: &ChangesLeft<'_>, at: usize) -> bool
    requires { IsReady changes.now }
    ensures within { result ≡ true → at < length pairs.now }
    ensures met { IfSome (slice_get pairs.now at) (λ pair. IsTrue result ↔ (first_cmp (changes_left changes.now) pair ≡ Some Equal)) }
{
    at < pairs.len() && is_of_first(pairs, changes, at)
}

/// The same, where a pair is there.
fn is_of_first(pairs: &PairList, changes: &ChangesLeft<'_>, at: usize) -> bool
    requires ready { IsReady changes.now }
    requires within { at < length pairs.now }
    ensures { IfSome (slice_get pairs.now at) (λ pair. IsTrue result ↔ (first_cmp (changes_left changes.now) pair ≡ Some Equal)) }
{
    let (term, number) = pairs.pair(at);
    changes.cmp_first(term, number) == Some(Ordering::Equal)
}

/// Makes a change of a pair at its place, and answers the place of the pair behind it.
#[tactic(auto, using(crate::proofs::Placing::there))]
fn make_at(
    pairs: &mut PairList,
    at: usize,
    met: bool,
    add: bool,
    term: &[u8],
    number: u32,
) -> Result<usize, Memory>
    requires within { at ≤ length pairs.old }
    requires rise { Rise (drop at pairs.old) }
    requires place { IsPlaceOf met at (record { term = term.now; number = number }) pairs.old }
    ensures { IfOk result (λ place. IsMadeAt add at (record { term = term.now; number = number }) pairs.old place pairs.new) }
{
    if met {
        return Ok(make_there(pairs, at, add));
    }
    make_away(pairs, at, add, term, number)
}

/// Makes a change of the pair that is at a place: it stays, or is taken out.
#[tactic(auto, using(crate::proofs::Placing::stays, crate::proofs::Placing::taken_out))]
fn make_there(pairs: &mut PairList, at: usize, add: bool) -> usize
    requires within { at < length pairs.old }
    requires rise { Rise (drop at pairs.old) }
    ensures { (p : Pair) → slice_get pairs.old at ≡ Some p → IsMadeAt add at p pairs.old result pairs.new }
{
    if !add {
        pairs.remove(at);
        return at;
    }
    let len = pairs.len();
    prove!(at < len);
    at + 1
}

/// Makes a change of a pair that is not at its place: it is put there, or stays away.
#[tactic(auto, using(crate::proofs::Placing::stays_away, crate::proofs::Placing::put_in, crate::proofs::Placing::longer))]
fn make_away(
    pairs: &mut PairList,
    at: usize,
    add: bool,
    term: &[u8],
    number: u32,
) -> Result<usize, Memory>
    requires within { at ≤ length pairs.old }
    requires rise { Rise (drop at pairs.old) }
    requires place { IsPlaceOf false at (record { term = term.now; number = number }) pairs.old }
    ensures { IfOk result (λ place. IsMadeAt add at (record { term = term.now; number = number }) pairs.old place pairs.new) }
{
    if !add {
        return Ok(at);
    }
    pairs.insert(at, term, number)?;
    let len = pairs.len();
    prove!(at < len);
    Ok(at + 1)
}
