ghost use Rattle.std.specs.Prelude.{◌<◌, ◌^◌};

use ax_frame::{
    FrameHead, MOST_PAYLOAD, Memory, Part, PartHead, PartsText, RootSlot, frame_head, part_head,
    read_frame, read_slot, split_part, write_frame, write_slot,
};
use std::alloc::Global;
use std::process::Abort;
use std::test::*;

/// The open root slot of a fresh store: version 1, area 1, generation 1.
const OPEN_SLOT: [u8; 16] = [
    0x01, 0x01, 0x00, 0x01, 0x01, 0x00, 0x00, 0x00, 0x00, 0x00, 0x00, 0x00, 0x41, 0x58, 0x44, 0x42,
];

/// The area of a store with the one document `{"id":"a"}`: a frame of a document, of the next
/// number and of a change of a page of terms, and the closed gate.
const AREA: [u8; 64] = [
    0x01, 0x36, 0x00, 0x00, 0x00, 0x00, 0x00, 0x00, 0x00, // an open frame of 54 bytes
    0x03, 0x01, 0x00, 0x00, 0x00, 0x0B, 0x00, 0x00, 0x00, // kind 3, key 1, 11 bytes
    0x00, 0x7B, 0x22, 0x69, 0x64, 0x22, 0x3A, 0x22, 0x61, 0x22, 0x7D, //
    0x01, 0x00, 0x00, 0x00, 0x00, 0x08, 0x00, 0x00, 0x00, // kind 1, key 0, 8 bytes
    0x02, 0x00, 0x00, 0x00, 0x00, 0x00, 0x00, 0x00, //
    0x06, 0x00, 0x00, 0x00, 0x00, 0x08, 0x00, 0x00, 0x00, // kind 6, key 0, 8 bytes
    0x01, 0x00, 0x02, 0x01, 0x61, 0x01, 0x01, 0x00, //
    0x00, // a closed gate
];

/// The parts of that log frame.
fn parts_of_area() -> [Part<'static>; 3] {
    [
        Part {
            kind: 3,
            key: 1,
            payload: b"\0{\"id\":\"a\"}",
        },
        Part {
            kind: 1,
            key: 0,
            payload: &[2, 0, 0, 0, 0, 0, 0, 0],
        },
        Part {
            kind: 6,
            key: 0,
            payload: &[1, 0, 2, 1, 0x61, 1, 1, 0],
        },
    ]
}

/// The log frame of the parts, its own gate open.
fn frame_of(rt: &impl Abort, alloc: Global, parts: &[Part<'_>]) -> Result<Vec<u8>, Memory> {
    let mut list = PartsText::begin(alloc);
    for part in parts {
        assert!(rt; part.payload.len() <= MOST_PAYLOAD);
        list.add(*part)?;
    }
    assert!(rt; !list.is_empty());
    let mut frame = write_frame(alloc, &list)?;
    frame.insert(0, 1)?;
    Ok(frame)
}

/// Asserts that the bytes begin with the frame of these parts.
fn assert_reads(rt: &impl Abort, bytes: &[u8], parts: &[Part<'_>]) {
    let mut given = read_frame(bytes).ok().expect(rt, "a frame stands there");
    for part in parts {
        let next = given.next().expect(rt, "a part remains");
        assert_eq!(rt; next.kind, part.kind);
        assert_eq!(rt; next.key, part.key);
        assert_eq!(rt; next.payload, part.payload);
    }
    assert!(rt; given.next().is_none());
}

#[test]
fn a_changed_byte_closes_a_root_slot_renames_it_or_is_refused(rt: HostRuntime) {
    let live = |version, area, generation| RootSlot::Live {
        version,
        area,
        generation,
    };
    let rows = [
        (0, 1, live(1, 1, 1)),
        (0, 0, RootSlot::Closed),
        (0, 2, RootSlot::Closed),
        (0, 0xFF, RootSlot::Closed),
        (1, 0, RootSlot::Bad),
        (1, 2, live(2, 1, 1)),
        (2, 1, live(257, 1, 1)),
        (3, 0, RootSlot::Bad),
        (3, 2, live(1, 2, 1)),
        (3, 3, RootSlot::Bad),
        (4, 0, live(1, 1, 0)),
        (11, 0x80, live(1, 1, 0x8000_0000_0000_0001)),
        (12, 0x61, RootSlot::Bad),
        (15, 0, RootSlot::Bad),
    ];
    for (at, byte, want) in rows {
        let mut bytes = OPEN_SLOT;
        assert!(rt; at < 16);
        bytes[at] = byte;
        assert_eq!(rt; read_slot(&bytes), want, "byte {at} is {byte}");
    }
    assert_eq!(rt; write_slot(1, 1, 1), OPEN_SLOT);
}

#[test]
fn the_worked_area_is_written_and_read_whole_and_in_pieces(rt: HostRuntime) -> Result<(), Fail> {
    let parts = parts_of_area();
    assert_reads(&rt, &AREA, &parts);
    assert_reads(&rt, &AREA[..63], &parts);
    assert_eq!(rt;
        frame_of(&rt, rt.alloc(), &parts)?.as_slice(),
        AREA.as_slice()
    );
    assert_eq!(rt;
        read_frame(&AREA)
            .ok()
            .expect(&rt, "a frame")
            .remaining_len(),
        54
    );
    let (head, mut rest) = AREA.split_first_chunk::<9>().expect(&rt, "nine bytes");
    assert_eq!(rt; frame_head(head), FrameHead::Frame { len: 54 });
    for part in parts {
        let (head, after) = rest.split_first_chunk::<9>().expect(&rt, "nine bytes");
        let want = PartHead {
            kind: part.kind,
            key: part.key,
            len: u32::try_from(part.payload.len())?,
        };
        assert_eq!(rt; part_head(head), want);
        let (payload, after) = after
            .split_at_checked(part.payload.len())
            .expect(&rt, "a payload");
        assert_eq!(rt; payload, part.payload);
        rest = after;
    }
    assert_eq!(rt; rest, [0].as_slice());
    assert_eq!(rt; frame_head(&[0; 9]), FrameHead::Closed);
    assert_eq!(rt; frame_head(&[1, 0, 0, 0, 0, 0, 0, 0, 0]), FrameHead::Bad);
    Ok(())
}

#[test]
fn a_changed_byte_makes_no_frame(rt: HostRuntime) {
    let rows = [
        (0, 1, true, "as it is"),
        (9, 0xFF, true, "a kind that no layer knows"),
        (63, 1, true, "an open gate behind the frame"),
        (0, 0, false, "a closed gate"),
        (0, 2, false, "a gate that is neither"),
        (1, 0, false, "length 0"),
        (1, 0x35, false, "a payload is cut by one byte"),
        (1, 0x37, false, "one byte after the last part"),
        (1, 0x38, false, "a length past the end"),
        (8, 0x80, false, "a length past all ends"),
        (
            14,
            0x0C,
            false,
            "a payload that takes the next head's first byte",
        ),
        (16, 0x01, false, "a payload too long"),
        (52, 0x09, false, "a part that runs past its frame"),
    ];
    for (at, byte, is_frame, what) in rows {
        let mut bytes = AREA;
        assert!(rt; at < 64);
        bytes[at] = byte;
        assert_eq!(rt; read_frame(&bytes).is_ok(), is_frame, "{what}");
    }
    assert!(rt; read_frame(&AREA[..62]).is_err());
    assert!(rt; read_frame(&AREA[..8]).is_err());
    assert!(rt; read_frame(&[]).is_err());
}

#[test]
fn a_payload_has_at_most_65536_bytes(rt: HostRuntime) -> Result<(), Fail> {
    for (payload, is_frame) in [(65_536u32, true), (65_537, false)] {
        let mut bytes = Vec::from_slice(rt.alloc(), &[1])?;
        bytes.extend_from_slice(&(u64::from(payload) + 9).to_le_bytes())?;
        bytes.extend_from_slice(&[5, 7, 0, 0, 0])?;
        bytes.extend_from_slice(&payload.to_le_bytes())?;
        bytes.resize(9 + 9 + 65_537, 0)?;
        assert_eq!(rt; read_frame(&bytes).is_ok(), is_frame, "{payload}");
        assert_eq!(rt; split_part(&bytes[9..]).is_some(), is_frame, "{payload}");
    }
    Ok(())
}

#[test]
fn the_longest_payloads_are_written_and_read_again(rt: HostRuntime) -> Result<(), Fail> {
    let mut payload = Vec::new(rt.alloc());
    payload.resize(MOST_PAYLOAD, 0xA5)?;
    let part = |kind, key| Part {
        kind,
        key,
        payload: &payload,
    };
    let parts = [part(3, 1), part(7, u32::MAX), part(0, 0)];
    let bytes = frame_of(&rt, rt.alloc(), &parts)?;
    assert_eq!(rt; bytes.len(), 9 + 3 * (9 + 65_536) + 1);
    assert_reads(&rt, &bytes, &parts);
    Ok(())
}

/// The next of a row of numbers, below 2 to the 31.
fn draw(seed: &mut u64) -> u32
    ensures { result < 2 ^ 31 }
{
    *seed = seed
        .wrapping_mul(6_364_136_223_846_793_005)
        .wrapping_add(1_442_695_040_888_963_407);
    (*seed >> 33) as u32
}

fn draw_byte(seed: &mut u64) -> u8 {
    (draw(seed) % 256) as u8
}

fn draw_parts<'a>(
    alloc: Global,
    seed: &mut u64,
    pool: &'a [u8; 512],
) -> Result<Vec<Part<'a>>, Memory> {
    let mut parts = Vec::new(alloc);
    let count = draw(seed) % 5 + 1;
    for _ in 0..count {
        let from = (draw(seed) % 256) as usize;
        let len = (draw(seed) % 256) as usize;
        parts.push(Part {
            kind: draw_byte(seed),
            key: draw(seed),
            payload: &pool[from..from + len],
        })?;
    }
    Ok(parts)
}

#[test]
fn what_was_written_is_read_again(rt: HostRuntime) -> Result<(), Fail> {
    let mut seed = 20_260_801;
    let mut pool = [0; 512];
    for byte in pool.iter_mut() {
        *byte = draw_byte(&mut seed);
    }
    for _ in 0..200 {
        let parts = draw_parts(rt.alloc(), &mut seed, &pool)?;
        let mut bytes = frame_of(&rt, rt.alloc(), &parts)?;
        assert_reads(&rt, &bytes, &parts);
        bytes.extend_from_slice(&pool)?;
        assert_reads(&rt, &bytes, &parts);
    }
    Ok(())
}
