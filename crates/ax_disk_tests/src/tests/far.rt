//! Damage far into an area: behind more than 1 MiB of frames, and behind more than are read at once. It is told with
//! its place, at opening or by the line that meets it.
use crate::tests::disks::turned;
use ax_disk::{Extent, MemDisk};
use ax_script::Status;
use ax_script_support::{CALLS, output_over};
use std::alloc::Global;
use std::test::Fail;

/// Room for the frames of twenty documents of nearly 60,000 bytes.
const ROOM: usize = 1 << 21;

/// How many letters a document has.
const LETTERS: usize = 59_900;

/// A document that stands behind more than 1 MiB: eighteen others come before it.
const BEYOND: usize = 19;

/// A document that stands behind more bytes than are read at once, 262,144: five others come before it.
const BEHIND: usize = 6;

/// In the frame of a creation its head, of nine bytes, and a meta part, of 17, stand before the part of the document; in
/// that a head of nine bytes and the number of a policy stand before the text.
const PART: usize = 26;

const TEXT: usize = 36;

/// How many bytes the text of a document with an id of one digit has: 15 in front of the letters, and two behind.
const TEXT_BYTES: usize = LETTERS + 17;

/// A byte that stands in no JSON text.
const NO_TEXT: u8 = 0xFF;

/// Adds the creation of a document that has its number for its id.
fn add_creation(alloc: Global, script: &mut Vec<u8>, number: usize) -> Result<(), Fail> {
    let front = format!(in alloc; "CREATE {{\"id\":\"{number}\",\"v\":\"")?;
    let letters = vec![in alloc; b'x'; LETTERS]?;
    script.extend_from_slice(front.as_bytes())?;
    script.extend_from_slice(letters.as_slice())?;
    Ok(script.extend_from_slice(b"\"}\n")?)
}

/// A store of so many documents, from 1 on.
fn store_of(alloc: Global, count: usize) -> Result<MemDisk, Fail> {
    let mut script = Vec::new(alloc);
    for number in 1..=count {
        add_creation(alloc, &mut script, number)?;
    }
    let (root, a, b) = (Vec::new(alloc), Vec::new(alloc), Vec::new(alloc));
    let mut disk = MemDisk::make(alloc, root, a, b, ROOM, CALLS, Vec::new(alloc))?;
    let _written = output_over(alloc, &mut disk, script.as_slice())?;
    Ok(disk)
}

/// Where the frame of a document begins: each frame says how many bytes there are behind its head.
fn frame_of(area: &[u8], number: usize) -> usize {
    let mut at: usize = 0;
    for _ in 1..number {
        at = at
            .saturating_add(9)
            .saturating_add(length_at(area, at.saturating_add(1)));
    }
    at
}

/// The number that four bytes at a place say; 0 where there are none.
fn length_at(area: &[u8], at: usize) -> usize {
    let (_, behind) = area.split_at(at.min(area.len()));
    match behind.split_first_chunk::<4>() {
        Some((bytes, _)) => u32::from_le_bytes(*bytes) as usize,
        None => 0,
    }
}

/// What a script is answered over a store with another byte at a place.
fn output_turned(
    alloc: Global,
    disk: &MemDisk,
    place: usize,
    byte: u8,
    script: &[u8],
) -> Result<(Status, Vec<u8>), Fail> {
    let mut bad = turned(alloc, disk, place, byte)?;
    output_over(alloc, &mut bad, script)
}

// By the bytes of a length from the third on, which are 0, a frame would have more bytes than the area. The store is not
// opened.
#[test]
fn the_head_of_a_frame_far_away_is_told(rt: HostRuntime) -> Result<(), Fail> {
    let alloc = rt.alloc();
    let disk = store_of(alloc, BEYOND + 1)?;
    let frame = frame_of(disk.bytes(Extent::A), BEYOND);
    assert!(rt; frame > 1 << 20, "{frame}");
    let damaged = Status::Damaged {
        extent: 1,
        at: frame as u64,
    };
    for byte in 3..=8usize {
        let place = frame.saturating_add(byte);
        let (status, output) = output_turned(alloc, &disk, place, 0xFF, b"READ 1\n")?;
        assert_eq!(rt; status, damaged, "{byte}");
        assert!(rt; output.is_empty(), "{byte}");
    }
    Ok(())
}

// The kind, the key and the length of a part: there is no such kind, no document has number 0, and no part is so long.
#[test]
fn the_head_of_a_part_far_away_is_told(rt: HostRuntime) -> Result<(), Fail> {
    let alloc = rt.alloc();
    let disk = store_of(alloc, BEYOND + 1)?;
    for number in [BEHIND, BEYOND] {
        let part = frame_of(disk.bytes(Extent::A), number).saturating_add(PART);
        assert!(rt; part > 1 << 18, "{part}");
        let damaged = Status::Damaged {
            extent: 1,
            at: part as u64,
        };
        for (place, byte) in [(0usize, 0xFF), (1, 0), (8, 0xFF)] {
            let at = part.saturating_add(place);
            let (status, output) = output_turned(alloc, &disk, at, byte, b"READ 1\n")?;
            assert_eq!(rt; status, damaged, "{number} {place}");
            assert!(rt; output.is_empty(), "{number} {place}");
        }
    }
    Ok(())
}

// The store is opened, and a document in front is read; a line that needs the text ends the run.
#[test]
fn a_text_far_away_that_is_none_is_told(rt: HostRuntime) -> Result<(), Fail> {
    let alloc = rt.alloc();
    let disk = store_of(alloc, BEHIND + 2)?;
    let frame = frame_of(disk.bytes(Extent::A), BEHIND);
    assert!(rt; frame > 1 << 18, "{frame}");
    let damaged = Status::Damaged {
        extent: 1,
        at: frame.saturating_add(PART) as u64,
    };
    for place in [7usize, LETTERS] {
        let at = frame.saturating_add(TEXT).saturating_add(place);
        for script in [
            b"READ z\nQUERY {\"query\":\"SELECT VALUE [c] FROM c\"}\n".as_slice(),
            b"READ z\nUPSERT {\"id\":\"6\"}\n",
            b"READ z\nDELETE 6\n",
        ] {
            let (status, output) = output_turned(alloc, &disk, at, NO_TEXT, script)?;
            assert_eq!(rt; status, damaged, "{place}");
            assert_eq!(rt; output.as_slice(), b"err 8 absent\n".as_slice(), "{place}");
        }
    }
    Ok(())
}

// The delta of the index behind that text: each line that looks the id up is told, and one that does not is served.
#[test]
fn a_part_of_the_index_far_away_that_is_none_is_told(rt: HostRuntime) -> Result<(), Fail> {
    let alloc = rt.alloc();
    let disk = store_of(alloc, BEHIND + 2)?;
    let frame = frame_of(disk.bytes(Extent::A), BEHIND);
    let delta = frame.saturating_add(TEXT).saturating_add(TEXT_BYTES);
    let damaged = Status::Damaged {
        extent: 1,
        at: delta as u64,
    };
    // Behind its head a delta has how many terms it changes, of which the first byte says here that more follow.
    let place = delta.saturating_add(9);
    for script in [
        b"QUERY {\"query\":\"SELECT VALUE COUNT(1) FROM c\"}\nREAD 6\n".as_slice(),
        b"QUERY {\"query\":\"SELECT VALUE COUNT(1) FROM c\"}\nCREATE {\"id\":\"6\"}\n",
        b"QUERY {\"query\":\"SELECT VALUE COUNT(1) FROM c\"}\nQUERY {\"query\":\"SELECT * FROM c WHERE c.id = '6'\"}\n",
    ] {
        let (status, output) = output_turned(alloc, &disk, place, 0xFF, script)?;
        assert_eq!(rt; status, damaged);
        assert_eq!(rt; output.as_slice(), b"row 8\nend 1\n".as_slice());
    }
    Ok(())
}
