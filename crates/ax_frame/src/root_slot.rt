//! Root slots: sixteen bytes that name the area of frames that counts.

ghost use Rattle.std.specs.Prelude.{◌≡◌, ◌≤◌, ◌⊎◌, ◌↔◌, IsTrue};
ghost use Rattle.ax_frame.specs.RootSlot.{IsSlot, mark, slot_bytes};

/// What sixteen bytes of the root are as a slot.
#[derive(Clone, Copy, Debug, PartialEq, Eq)]
pub enum RootSlot {
    /// The gate byte is not 1. What follows it has no meaning.
    Closed,
    /// An open slot. Whether the version is one that the caller knows is the caller's matter.
    Live {
        /// The version of the format, from 1 on.
        version: u16,
        /// The area that the slot names: 1 or 2.
        area: u8,
        /// Of two open slots the one with the greater generation counts.
        generation: u64,
    },
    /// The gate is open, and the bytes name nothing: version 0, an area other than 1 and 2, or a
    /// wrong mark.
    Bad,
}

const MARK: [u8; 4] = *b"AXDB";

/// What the bytes are as a slot.
pub fn read_slot(bytes: &[u8; 16]) -> RootSlot
    ensures is { IsSlot bytes.now result }
    ensures only { (slot : RootSlot) → IsSlot bytes.now slot → slot ≡ result }
{
    let [
        gate,
        v0,
        v1,
        area,
        g0,
        g1,
        g2,
        g3,
        g4,
        g5,
        g6,
        g7,
        m0,
        m1,
        m2,
        m3,
    ] = *bytes;
    if gate != 1 {
        return RootSlot::Closed;
    }
    let version = u16::from_le_bytes([v0, v1]);
    let generation = u64::from_le_bytes([g0, g1, g2, g3, g4, g5, g6, g7]);
    if !is_named(version, area, [m0, m1, m2, m3]) {
        return RootSlot::Bad;
    }
    RootSlot::Live {
        version,
        area,
        generation,
    }
}

/// Whether an open slot can name this version and area, and ends so.
fn is_named(version: u16, area: u8, end: [u8; 4]) -> bool
    ensures { IsTrue result ↔ ((1 ≤ version) × ((area ≡ 1) ⊎ (area ≡ 2)) × (end ≡ mark)) }
{
    version >= 1 && (area == 1 || area == 2) && end == MARK
}

/// The open slot that names this version, area and generation.
pub fn write_slot(version: u16, area: u8, generation: u64) -> [u8; 16]
    requires version_from { 1 ≤ version }
    requires one_of_two { (area ≡ 1) ⊎ (area ≡ 2) }
    ensures spelled { result ≡ slot_bytes version area generation }
    ensures live { IsSlot result (RootSlot.Live version area generation) }
{
    let [v0, v1] = version.to_le_bytes();
    let [g0, g1, g2, g3, g4, g5, g6, g7] = generation.to_le_bytes();
    let [m0, m1, m2, m3] = MARK;
    [
        1, v0, v1, area, g0, g1, g2, g3, g4, g5, g6, g7, m0, m1, m2, m3,
    ]
}
