//! Parts that are committed together.

ghost use Rattle.std.specs.Prelude.{◌≡◌, ◌≢◌, ◌≤◌, [], ◌∷◌, ◌++◌, true, false, length, IfOk, OnOk, OnErr};
ghost use Rattle.ax_frame.specs.Part.{part_value};
ghost use Rattle.ax_store.specs.Change.{changes_value, can_frame, IsFrameOf};

use crate::change::Change;
use crate::making::new_part;
use crate::out_of_memory::Memory;
use ax_frame::{Part, PartsText, write_frame};
use std::alloc::Global;

/// Parts that become durable together or not at all.
///
/// Sealing takes all the memory that the commit needs.
#[derive(Drop)]
pub struct Batch {
    pub(crate) text: PartsText,
    pub(crate) changes: Vec<Change>,
    pub(crate) frame: Vec<u8>,
    pub(crate) sealed: bool,
    ghost same: { text ≡ changes_value changes.items },
    ghost can: { sealed ≡ true → can_frame text ≡ true },
    ghost spelled: { sealed ≡ true → IsFrameOf frame.items text },
}

impl Batch {
    ghost use Rattle.ax_store.specs.Batch.{batch_parts, is_sealed};

    /// No part yet. It takes no memory.
    pub fn begin(alloc: Global) -> Batch
        ensures parts { batch_parts result ≡ [] }
        ensures unsealed { is_sealed result ≡ false }
    {
        Batch {
            text: PartsText::begin(alloc),
            changes: Vec::new(alloc),
            frame: Vec::new(alloc),
            sealed: false,
        }
    }

    /// Puts a part, whose payload has at most 65,536 bytes, behind the others. `Memory` where there is no room for it; the parts are then as
    /// they were.
    pub fn add(&mut self, alloc: Global, part: Part<'_>) -> Result<(), Memory>
        requires { length part.payload.now ≤ 65536 }
        ensures ok { OnOk result (batch_parts self.new ≡ batch_parts self.old ++ part_value part.entry ∷ []) }
        ensures err { OnErr result (batch_parts self.new ≡ batch_parts self.old) }
        ensures unsealed { is_sealed self.new ≡ false }
    {
        self.sealed = false;
        let new = new_part(alloc, part.kind, part.payload)?;
        self.changes.reserve(1)?;
        self.text.add(part)?;
        let (kind, key) = (part.kind, part.key);
        self.changes.push_reserved(Change { kind, key, new });
        Ok(())
    }

    /// How many parts it has.
    pub fn parts(&self) -> usize
        ensures { result ≡ length (batch_parts self.now) }
    {
        self.changes.len()
    }

    /// Writes the log frame of at least one part, so that the commit needs no memory. `Memory` where there is none for it;
    /// the batch is then gone.
    pub fn seal(mut self, alloc: Global) -> Result<Batch, Memory>
        requires { batch_parts self ≢ [] }
        ensures parts { IfOk result (λ batch. batch_parts batch ≡ batch_parts self) }
        ensures sealed { IfOk result (λ batch. is_sealed batch ≡ true) }
    {
        self.frame = write_frame(alloc, &self.text)?;
        self.sealed = true;
        Ok(self)
    }
}
