//! The batch by which a policy becomes the one now.

ghost use Rattle.std.specs.Prelude.{◌≡◌, ◌≤◌, [], ◌∷◌, ◌++◌, length, if◌then◌else◌, IfOk, OnOk};
ghost use Rattle.ax_policy.specs.Normal.{normal_text};
ghost use Rattle.ax_policy.specs.Table.{is_text_of, policy_at};
ghost use Rattle.ax_store.specs.Batch.{batch_parts};
ghost use Rattle.ax_transform.specs.Parts as spec;
ghost use Rattle.ax_transform.specs.Parts.{setting_parts, text_part};

use ax_pages::numbers::POLICY;
use ax_policy::{Policy, PolicyTable};
use ax_store::{Batch, Memory, Part};
use ax_write::add_meta;
use std::alloc::Global;

/// The batch by which a policy becomes the one now under a number: its text, unless the number has that text already, and
/// the meta.
pub(crate) fn setting(
    alloc: Global,
    table: &PolicyTable,
    next: u32,
    number: u8,
    policy: &Policy,
) -> Result<Batch, Memory>
    requires { length (normal_text policy.now) ≤ 65536 }
    ensures { IfOk result (λ batch. batch_parts batch ≡ setting_parts next number policy.now table.now) }
{
    let Ok(text) = policy.normal(alloc) else {
        return Err(Memory);
    };
    let mut batch = Batch::begin(alloc);
    if !has_text(alloc, table, number, text.as_slice())? {
        add_policy(alloc, &mut batch, number, text.as_slice())?;
    }
    add_meta(alloc, &mut batch, next_told(next), number)?;
    Ok(batch)
}

/// Whether the number has a policy of that normal text.
fn has_text(alloc: Global, table: &PolicyTable, number: u8, text: &[u8]) -> Result<bool, Memory>
    ensures { IfOk result (λ has. has ≡ is_text_of text.now (policy_at table.now number)) }
{
    match table.policy(number) {
        Some(policy) => is_text(alloc, policy, text),
        None => Ok(false),
    }
}

fn is_text(alloc: Global, policy: &Policy, text: &[u8]) -> Result<bool, Memory>
    ensures { IfOk result (λ is. is ≡ is_text_of text.now (Some policy.now)) }
{
    let Ok(normal) = policy.normal(alloc) else {
        return Err(Memory);
    };
    Ok(normal.as_slice() == text)
}

/// Adds the part of a policy.
fn add_policy(alloc: Global, batch: &mut Batch, number: u8, text: &[u8]) -> Result<(), Memory>
    requires { length text.now ≤ 65536 }
    ensures { OnOk result (batch_parts batch.new ≡ batch_parts batch.old ++ text_part number text.now ∷ []) }
{
    let key = u32::from(number);
    batch.add(
        alloc,
        Part {
            kind: POLICY,
            key,
            payload: text,
        },
    )
}

/// The next number as the meta tells it: none can tell 0, and no store has it.
fn next_told(next: u32) -> u32
    ensures { result ≡ spec.next_told next }
{
    if next == 0 { 1 } else { next }
}
