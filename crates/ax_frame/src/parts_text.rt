//! A list of parts that is being written.

ghost use Rattle.std.specs.Prelude.{◌≡◌, ◌≤◌, ◌<◌, ◌^◌, ◌↔◌, [], ◌∷◌, ◌++◌, length, IsTrue, OnOk, OnErr};
ghost use Rattle.ax_frame.specs.Part.{part_value, part_bytes, parts_bytes, AllFit};

use crate::out_of_memory::Memory;
use crate::part::{MOST_PAYLOAD, Part, head_of};
use std::alloc::Global;
use std::marker::Model;

/// A list of parts, kept as the bytes that a log frame round them has. Contracts see the list.
#[derive(Drop)]
pub struct PartsText {
    // Their spelling.
    bytes: Vec<u8>,
}

impl Model for PartsText {
    ghost use Rattle.std.specs.Prelude.{List};
    ghost use Rattle.ax_frame.specs.Part.{PartValue};
    ghost use Rattle.ax_frame.specs.View.{parts_in, Spells};

    ghost Value = { List PartValue };

    ghost view = { λ p. parts_in p.bytes.items };

    ghost invariant = { λ p. Spells p.bytes.items };
}

impl PartsText {
    /// The empty list. It takes no memory yet: what is added later takes it from `alloc`.
    pub fn begin(alloc: Global) -> PartsText
        ensures { result ≡ [] }
    {
        PartsText {
            bytes: Vec::new(alloc),
        }
    }

    /// Whether no part was added.
    pub fn is_empty(&self) -> bool
        ensures { IsTrue result ↔ (self.now ≡ []) }
    {
        self.bytes.is_empty()
    }

    /// Puts a part, whose payload has at most 65,536 bytes, at the end. `Memory` where there is no room for it; the list is then as it was.
    pub fn add(&mut self, part: Part<'_>) -> Result<(), Memory>
        requires { length part.payload.now ≤ 65536 }
        ensures ok { OnOk result (self.new ≡ self.old ++ part_value part.entry ∷ []) }
        ensures err { OnErr result (self.new ≡ self.old) }
    {
        append(&mut self.bytes, part)
    }

    /// The spelling of the parts.
    pub(crate) fn bytes(&self) -> &[u8]
        ensures spelled { result.now ≡ parts_bytes self.now }
        ensures fit { AllFit self.now }
        ensures small { length result.now < 2 ^ 63 }
    {
        &self.bytes
    }
}

/// Puts the bytes of a part at the end, or changes nothing.
fn append(bytes: &mut Vec<u8>, part: Part<'_>) -> Result<(), Memory>
    requires { length part.payload.now ≤ 65536 }
    ensures ok { OnOk result (bytes.new.items ≡ bytes.old.items ++ part_bytes (part_value part.entry)) }
    ensures err { OnErr result (bytes.new.items ≡ bytes.old.items) }
{
    let len = part.payload.len();
    let head = head_of(part.kind, part.key, len as u32);
    bytes.reserve(head.len() + len)?;
    bytes.extend_from_slice(&head)?;
    bytes.extend_from_slice(part.payload)?;
    Ok(())
}
