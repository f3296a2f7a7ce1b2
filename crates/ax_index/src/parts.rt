//! Parts of term pages, put behind those of a batch.

ghost use Rattle.std.specs.Prelude.{◌≡◌, ◌<◌, ◌≤◌, [], ◌∷◌, ◌++◌, List, length, OnOk, IfOk};
ghost use Rattle.ax_delta.specs.Changes.{changed_pairs};
ghost use Rattle.ax_pair.specs.Order.{Rise, BeginsFrom};
ghost use Rattle.ax_pages.specs.Contents.{TermPage};
ghost use Rattle.ax_store.specs.Batch.{batch_parts};
ghost use Rattle.ax_index.specs.DeltaRuns.{AreFew, ArePut};
ghost use Rattle.ax_index.specs.DeltaSizes.{AreShort, HaveShortTerms, counted_bytes};
ghost use Rattle.ax_index.specs.PageSizes.{base_bytes};
ghost use Rattle.ax_index.specs.Rewriting.{IsBasePut};

use crate::out_of_memory::Memory;
use crate::sizes::delta_len;
use ax_delta::Change;
use ax_frame::{MOST_PAYLOAD, Part};
use ax_pages::numbers::{BASE, DELTA};
use ax_pair_list::PairRef;
use ax_store::Batch;
use std::alloc::Global;

/// Puts deltas of a page that carry rising changes, and answers how many they are: one, but for changes of
/// which one delta would be longer than a part may be.
pub(crate) fn put_deltas(
    alloc: Global,
    batch: &mut Batch,
    page: u32,
    changes: &[Change],
) -> Result<usize, Memory>
    requires some { 0 < length changes.now }
    requires rise { Rise (changed_pairs changes.now) }
    requires short { HaveShortTerms changes.now }
    ensures put { (now : List TermPage) → page < length now
        → IfOk result (λ count. ArePut page changes.now now count (batch_parts batch.old) (batch_parts batch.new)) }
    ensures few { IfOk result (λ count. AreFew changes.now count) }
{
    let payload = ax_delta::encode(alloc, changes)?;
    if payload.len() <= MOST_PAYLOAD {
        put_part(alloc, batch, DELTA, page, payload.as_slice())?;
        return Ok(1);
    }
    put_pieces(alloc, batch, page, changes)
}

/// Puts a delta of each piece into which rising changes are cut, and answers how many they are.
fn put_pieces(
    alloc: Global,
    batch: &mut Batch,
    page: u32,
    changes: &[Change],
) -> Result<usize, Memory>
    requires rise { Rise (changed_pairs changes.now) }
    requires short { HaveShortTerms changes.now }
    ensures { (now : List TermPage) → page < length now
        → IfOk result (λ count. ArePut page changes.now now count (batch_parts batch.old) (batch_parts batch.new)) }
{
    let mut rest = changes;
    let mut count = 0;
    while rest.len() > 0 {
        let (first, behind) = rest.split_at(delta_len(rest));
        put_delta(alloc, batch, page, first)?;
        rest = behind;
        count += 1;
    }
    Ok(count)
}

/// Puts one delta of a page.
fn put_delta(alloc: Global, batch: &mut Batch, page: u32, changes: &[Change]) -> Result<(), Memory>
    requires some { 0 < length changes.now }
    requires rise { Rise (changed_pairs changes.now) }
    requires fits { counted_bytes changes.now ≤ 60000 }
    ensures { (now : List TermPage) → page < length now
        → OnOk result (ArePut page changes.now now 1 (batch_parts batch.old) (batch_parts batch.new)) }
{
    let payload = ax_delta::encode(alloc, changes)?;
    put_part(alloc, batch, DELTA, page, payload.as_slice())?;
    Ok(())
}

/// Puts a base of a page of this low pair.
pub(crate) fn put_base(
    alloc: Global,
    batch: &mut Batch,
    page: u32,
    low: &PairRef<'_>,
    pairs: &[PairRef<'_>],
) -> Result<(), Memory>
    requires rise { Rise pairs.now }
    requires begins { BeginsFrom low.now pairs.now }
    requires short { AreShort low.now pairs.now }
    requires few { base_bytes pairs.now ≤ 4096 }
    ensures { OnOk result (IsBasePut page low.now pairs.now (batch_parts batch.old) (batch_parts batch.new)) }
{
    let payload = ax_leaf::encode(alloc, low, pairs)?;
    put_part(alloc, batch, BASE, page, payload.as_slice())?;
    Ok(())
}

/// Puts a part.
fn put_part(
    alloc: Global,
    batch: &mut Batch,
    kind: u8,
    key: u32,
    payload: &[u8],
) -> Result<(), Memory>
    requires { length payload.now ≤ 65536 }
    ensures { OnOk result (batch_parts batch.new
        ≡ batch_parts batch.old ++ record { kind = kind; key = key; payload = payload.now } ∷ []) }
{
    batch.add(alloc, Part { kind, key, payload })?;
    Ok(())
}
