//! The batches by which documents are written.

ghost use Rattle.std.specs.Prelude.{◌≡◌, ◌<◌, ◌≤◌, ◌+◌, ◌^◌, [], ◌∷◌, ◌++◌, length, IfOk, OnOk};
ghost use Rattle.ax_tree.specs.CanonicalText.{canonical_text};
ghost use Rattle.ax_storable.specs.Storable.{most_bytes};
ghost use Rattle.ax_pages.specs.Contents.{meta_bytes};
ghost use Rattle.ax_store.specs.Batch.{batch_parts};
ghost use Rattle.ax_write.specs.Batches.{creating_parts, deleting_parts, document_part, meta_part, replacing_parts};

use ax_pages::numbers::{GONE, PLAIN_DOCUMENT, PLAIN_META};
use ax_store::{Batch, Memory, Part};
use ax_tree::{Tree, append_tree};
use std::alloc::Global;

/// The front of the batch by which a document that is held gets a tree.
pub(crate) fn replacing(
    alloc: Global,
    number: u32,
    policy: u8,
    tree: &Tree,
) -> Result<Batch, Memory>
    requires { length (canonical_text tree.now) ≤ most_bytes }
    ensures { IfOk result (λ batch. batch_parts batch ≡ replacing_parts number policy tree.now) }
{
    let mut batch = Batch::begin(alloc);
    add_document(alloc, &mut batch, number, policy, tree)?;
    Ok(batch)
}

/// The front of the batch by which a document is created under the next number.
pub(crate) fn creating(alloc: Global, number: u32, policy: u8, tree: &Tree) -> Result<Batch, Memory>
    requires small { length (canonical_text tree.now) ≤ most_bytes }
    requires left { number + 1 < 2 ^ 32 }
    ensures { IfOk result (λ batch. batch_parts batch ≡ creating_parts number policy tree.now) }
{
    let mut batch = Batch::begin(alloc);
    add_meta(alloc, &mut batch, number + 1, policy)?;
    add_document(alloc, &mut batch, number, policy, tree)?;
    Ok(batch)
}

/// The front of the batch by which a document is deleted.
pub(crate) fn deleting(alloc: Global, number: u32) -> Result<Batch, Memory>
    ensures { IfOk result (λ batch. batch_parts batch ≡ deleting_parts number) }
{
    let mut batch = Batch::begin(alloc);
    batch.add(
        alloc,
        Part {
            kind: GONE,
            key: number,
            payload: &[],
        },
    )?;
    Ok(batch)
}

/// Puts behind a batch the part of a document, under the policy of a number.
pub fn add_document(
    alloc: Global,
    batch: &mut Batch,
    number: u32,
    policy: u8,
    tree: &Tree,
) -> Result<(), Memory>
    requires { length (canonical_text tree.now) ≤ most_bytes }
    ensures { OnOk result (batch_parts batch.new ≡ batch_parts batch.old ++ document_part number policy tree.now ∷ []) }
{
    let text = document_payload(alloc, policy, tree)?;
    let kind = PLAIN_DOCUMENT;
    let key = number;
    let payload = text.as_slice();
    let document = Part { kind, key, payload };
    batch.add(alloc, document)
}

/// The number of the policy, and the canonical text.
fn document_payload(alloc: Global, policy: u8, tree: &Tree) -> Result<Vec<u8>, Memory>
    ensures { IfOk result (λ payload. payload.items ≡ policy ∷ canonical_text tree.now) }
{
    let mut payload = Vec::with_capacity(alloc, 128)?;
    payload.push(policy)?;
    match append_tree(&mut payload, tree) {
        Ok(()) => Ok(payload),
        Err(_) => Err(Memory),
    }
}

/// Puts behind a batch the meta: the number that the next creation takes, and that of the policy now.
pub fn add_meta(alloc: Global, batch: &mut Batch, next: u32, policy: u8) -> Result<(), Memory>
    ensures { OnOk result (batch_parts batch.new ≡ batch_parts batch.old ++ meta_part next policy ∷ []) }
{
    let payload = meta_payload(next, policy);
    batch.add(
        alloc,
        Part {
            kind: PLAIN_META,
            key: 0,
            payload: &payload,
        },
    )
}

/// The next number, and the number of the policy now.
fn meta_payload(next: u32, policy: u8) -> [u8; 8]
    ensures { result ≡ meta_bytes next policy }
{
    let [n0, n1, n2, n3] = next.to_le_bytes();
    let [p0, p1, p2, p3] = u32::from(policy).to_le_bytes();
    [n0, n1, n2, n3, p0, p1, p2, p3]
}
