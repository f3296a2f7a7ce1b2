//! A part is taken into the pages.

ghost use Rattle.std.specs.Prelude.{◌≡◌, ◌<◌, ◌≤◌, length, OnOk, Some};
ghost use Rattle.ax_frame.specs.Part.{part_value};
ghost use Rattle.ax_store.specs.Kept.{room_of};
ghost use Rattle.ax_store.specs.Taking.{TellsPart, TellsFront};

use crate::making::new_part;
use crate::out_of_memory::Memory;
use crate::pages::Pages;
use ax_frame::{Part, split_part};
use ax_pages::{Kind, kind_of_number};
use std::alloc::Global;

/// Why the parts of a frame are not taken.
#[derive(Clone, Copy, Debug, PartialEq, Eq)]
pub(crate) enum TakeFault {
    /// At this offset of the area stands no part, or one that is outside the format.
    Spoiled {
        /// The offset.
        at: u64,
    },
    /// Out of memory.
    Memory,
}

/// Takes the part at the front of bytes that stand at an offset of the area, and answers how many
/// bytes it has with its head.
pub(crate) fn take_front(
    alloc: Global,
    pages: &mut Pages,
    bytes: &[u8],
    at: u64,
) -> Result<usize, TakeFault>
    ensures { TellsFront result bytes.now at pages.old pages.new }
{
    let Some((part, after)) = split_part(bytes) else {
        return Err(TakeFault::Spoiled { at });
    };
    match take_part(alloc, pages, part, at) {
        Ok(()) => Ok(bytes.len() - after.len()),
        Err(fault) => Err(fault),
    }
}

/// Takes one part, which stands at an offset of the area.
fn take_part(alloc: Global, pages: &mut Pages, part: Part<'_>, at: u64) -> Result<(), TakeFault>
    requires { length part.payload.now ≤ 65536 }
    ensures { TellsPart result (part_value part.entry) at pages.old pages.new }
{
    let Some(kind) = kind_of_number(part.kind) else {
        return Err(TakeFault::Spoiled { at });
    };
    if !pages.admits(kind, part.key, part.payload) {
        return Err(TakeFault::Spoiled { at });
    }
    let Ok(new) = new_part(alloc, part.kind, part.payload) else {
        return Err(TakeFault::Memory);
    };
    let Ok(()) = make_room(pages, kind, part.key) else {
        return Err(TakeFault::Memory);
    };
    pages.put(kind, part.key, at, new);
    Ok(())
}

/// Makes room for a part of that kind and key.
fn make_room(pages: &mut Pages, kind: Kind, key: u32) -> Result<(), Memory>
    ensures spare { OnOk result (0 < pages.new.spare) }
    ensures deltas { OnOk result (kind ≡ Kind.Delta → key < length pages.old.contents.terms → 1 ≤ room_of key pages.new) }
    ensures contents { pages.new.contents ≡ pages.old.contents }
    ensures offsets { pages.new.offsets ≡ pages.old.offsets }
{
    pages.reserve(1)?;
    match kind {
        Kind::Delta => pages.reserve_deltas(key, 1),
        Kind::Meta | Kind::Policy | Kind::Document | Kind::Gone | Kind::Base => Ok(()),
    }
}
