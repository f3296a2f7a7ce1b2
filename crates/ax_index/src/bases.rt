//! A page written anew: its base, and new pages for the pairs that it is not to have.

ghost use Rattle.std.specs.Prelude.{◌≡◌, ◌<◌, ◌≤◌, List, length, true, false, ◌+◌, ◌⊎◌, IsTrue, OnOk, IfOk};
ghost use Rattle.ax_pair.specs.declared.pair.Pair.{Pair};
ghost use Rattle.ax_pair.specs.Order.{Rise, BeginsFrom};
ghost use Rattle.ax_pages.specs.AfterPart.{most_term_pages};
ghost use Rattle.ax_pages.specs.Contents.{TermPage};
ghost use Rattle.ax_pages.specs.TermPages.{low_pair};
ghost use Rattle.ax_pairs.specs.Index.{AllBelong};
ghost use Rattle.ax_store.specs.Batch.{batch_parts};
ghost use Rattle.ax_store.specs.Store.{store_contents};
ghost use Rattle.ax_index.specs.DeltaSizes.{AreShort};
ghost use Rattle.ax_index.specs.PageSizes.{AreStuck, HasNumbers, NeedsTooMany, base_bytes, rest_of};
ghost use Rattle.ax_index.specs.Rewriting.{IsBasePut, IsRewritten};

use crate::out_of_memory::Memory;
use crate::parts::put_base;
use crate::runs::all_belong;
use crate::sizes::{are_short, base_len, new_pages};
use ax_pair_list::{PairList, PairRef};
use ax_store::{Batch, Store};
use std::alloc::Global;

/// The most term pages that there may be.
const MOST_PAGES: u32 = 2_147_483_648;

/// Writes a page anew with rising pairs that stand in one buffer, as `rewrite` does.
pub(crate) fn rewrite_list<C>(
    alloc: Global,
    store: &Store<C>,
    batch: &mut Batch,
    next: &mut u32,
    page: u32,
    pairs: &PairList,
) -> Result<bool, Memory>
    requires page { page < length (store_contents store.now).terms }
    requires rise { Rise pairs.now }
    ensures belong { IfOk result (λ done. done ≡ true → AllBelong pairs.now page (store_contents store.now).terms) }
    ensures rewritten { (now : List TermPage) → next.old ≡ length now → page < length now
        → low_pair page now ≡ low_pair page (store_contents store.now).terms
        → AllBelong pairs.now page now
        → IfOk result (λ done. done ≡ true → IsRewritten page pairs.now now next.new (batch_parts batch.old) (batch_parts batch.new)) }
    ensures left { IfOk result (λ done. done ≡ false → (batch_parts batch.new ≡ batch_parts batch.old) × (next.new ≡ next.old)) }
    ensures full { IfOk result (λ done. done ≡ false → AllBelong pairs.now page (store_contents store.now).terms
        → AreStuck next.old (low_pair page (store_contents store.now).terms) pairs.now) }
{
    let refs = pairs.refs(alloc)?;
    rewrite(alloc, store, batch, next, page, refs.as_slice())
}

/// Writes a page anew with these rising pairs, and new pages behind it where they are many; the next new
/// page then has the number `next`. It answers whether it did: not where a pair is none of the page, which
/// is so in no index, nor where a term, or that of the page's low pair, has more than 4,096 bytes, or there are
/// no numbers for the new pages.
pub(crate) fn rewrite<C>(
    alloc: Global,
    store: &Store<C>,
    batch: &mut Batch,
    next: &mut u32,
    page: u32,
    pairs: &[PairRef<'_>],
) -> Result<bool, Memory>
    requires page { page < length (store_contents store.now).terms }
    requires rise { Rise pairs.now }
    ensures belong { IfOk result (λ done. done ≡ true → AllBelong pairs.now page (store_contents store.now).terms) }
    ensures rewritten { (now : List TermPage) → next.old ≡ length now → page < length now
        → low_pair page now ≡ low_pair page (store_contents store.now).terms
        → AllBelong pairs.now page now
        → IfOk result (λ done. done ≡ true → IsRewritten page pairs.now now next.new (batch_parts batch.old) (batch_parts batch.new)) }
    ensures left { IfOk result (λ done. done ≡ false → (batch_parts batch.new ≡ batch_parts batch.old) × (next.new ≡ next.old)) }
    ensures full { IfOk result (λ done. done ≡ false → AllBelong pairs.now page (store_contents store.now).terms
        → AreStuck next.old (low_pair page (store_contents store.now).terms) pairs.now) }
{
    let low = low_of(store, page);
    if !all_belong(store, page, pairs) || !has_room(*next, &low, pairs) {
        return Ok(false);
    }
    put_bases(alloc, batch, next, page, &low, pairs)?;
    Ok(true)
}

/// Whether no term is too long for a base, and there are numbers for the new pages that the pairs need.
fn has_room(next: u32, low: &PairRef<'_>, pairs: &[PairRef<'_>]) -> bool
    ensures short { IsTrue result → AreShort low.now pairs.now }
    ensures few { IsTrue result → HasNumbers next (rest_of pairs.now) }
    ensures stuck { IsTrue result ⊎ AreStuck next low.now pairs.now }
{
    if !are_short(low, pairs) {
        return false;
    }
    has_numbers(next, pairs)
}

/// Whether there are numbers for the new pages that the pairs need.
fn has_numbers(next: u32, pairs: &[PairRef<'_>]) -> bool
    ensures few { IsTrue result → HasNumbers next (rest_of pairs.now) }
    ensures many { IsTrue result ⊎ NeedsTooMany next pairs.now }
{
    next as usize + new_pages(pairs) <= MOST_PAGES as usize
}

/// The low pair of a page.
fn low_of<C>(store: &Store<C>, page: u32) -> PairRef<'_>
    requires { page < length (store_contents store.now).terms }
    ensures { result ≡ low_pair page (store_contents store.now).terms }
{
    let (term, number) = store.low(page);
    PairRef::new(term, number)
}

/// Puts the base of a page, and first bases of new pages for the pairs that it is not to have.
fn put_bases(
    alloc: Global,
    batch: &mut Batch,
    next: &mut u32,
    page: u32,
    low: &PairRef<'_>,
    pairs: &[PairRef<'_>],
) -> Result<(), Memory>
    requires rise { Rise pairs.now }
    requires begins { BeginsFrom low.now pairs.now }
    requires short { AreShort low.now pairs.now }
    requires numbers { HasNumbers next.old (rest_of pairs.now) }
    ensures { (now : List TermPage) → next.old ≡ length now → page < length now → low_pair page now ≡ low.now
        → AllBelong pairs.now page now
        → OnOk result (IsRewritten page pairs.now now next.new (batch_parts batch.old) (batch_parts batch.new)) }
{
    let (first, mut rest) = pairs.split_at(base_len(pairs));
    put_base(alloc, batch, page, low, first)?;
    while let Some((low, _)) = rest.split_first() {
        let (piece, behind) = rest.split_at(base_len(rest));
        put_new_page(alloc, batch, next, low, piece)?;
        rest = behind;
    }
    Ok(())
}

/// Puts the first base of the next new page, whose low pair is its first.
fn put_new_page(
    alloc: Global,
    batch: &mut Batch,
    next: &mut u32,
    low: &PairRef<'_>,
    pairs: &[PairRef<'_>],
) -> Result<(), Memory>
    requires rise { Rise pairs.now }
    requires begins { BeginsFrom low.now pairs.now }
    requires short { AreShort low.now pairs.now }
    requires few { base_bytes pairs.now ≤ 4096 }
    requires number { next.old < most_term_pages }
    ensures put { OnOk result (IsBasePut next.old low.now pairs.now (batch_parts batch.old) (batch_parts batch.new)) }
    ensures next { OnOk result ((next.new ≡ next.old + 1) × (next.old < most_term_pages)) }
{
    put_base(alloc, batch, *next, low, pairs)?;
    *next += 1;
    Ok(())
}
