//! How often a scan of documents reads the disk, and what it reads.

ghost use Rattle.std.specs.Prelude.{◌≡◌, ◌≤◌, ℕ, IsTrue, length};
ghost use Rattle.ax_store.specs.ReadAhead.{AgreesAheadUnlessFailed};

use super::room_for;
use ax_cache::{NoPages, PageCache};
use ax_disk::{Disk, Extent, MemDisk};
use ax_frame::{Part, PartsText, write_frame};
use ax_store::{ReadAhead, Store};
use std::alloc::Global;
use std::test::Fail;

/// The first text is read alone. Those behind it that lie together come from one read, the last of them before the
/// log's end; the same texts out of order are read one by one.
#[test]
fn texts_together_are_read_once(rt: HostRuntime) -> Result<(), Fail> {
    let alloc = rt.alloc();
    let mut disk = room_for(alloc, 1000)?;
    assert!(rt; puts_texts(alloc, &mut disk, 5, 20, 0));
    let opening = reads_for(alloc, &mut disk, &[], 20);
    assert!(rt; opening.is_some());
    assert_eq!(rt;
        reads_for(alloc, &mut disk, &[1, 2, 3, 4, 5], 20),
        more(opening, 2)
    );
    assert_eq!(rt;
        reads_for(alloc, &mut disk, &[5, 4, 2], 20),
        more(opening, 3)
    );
    assert_eq!(rt;
        reads_for(alloc, &mut disk, &[3, 4, 5, 5], 20),
        more(opening, 2)
    );
    Ok(())
}

/// Where less than 8 KiB of other parts stand between, they are read with the texts.
#[test]
fn texts_with_little_between_are_read_once(rt: HostRuntime) -> Result<(), Fail> {
    let alloc = rt.alloc();
    let mut disk = room_for(alloc, 1000)?;
    assert!(rt; puts_texts(alloc, &mut disk, 5, 20, 60));
    let opening = reads_for(alloc, &mut disk, &[], 20);
    assert!(rt; opening.is_some());
    assert_eq!(rt;
        reads_for(alloc, &mut disk, &[1, 2, 3, 4, 5], 20),
        more(opening, 2)
    );
    Ok(())
}

/// Where more stands between, each text is read alone.
#[test]
fn scattered_texts_are_read_one_by_one(rt: HostRuntime) -> Result<(), Fail> {
    let alloc = rt.alloc();
    let mut disk = room_for(alloc, 60_000)?;
    assert!(rt; puts_texts(alloc, &mut disk, 5, 20, 9000));
    let opening = reads_for(alloc, &mut disk, &[], 20);
    assert!(rt; opening.is_some());
    assert_eq!(rt;
        reads_for(alloc, &mut disk, &[1, 2, 3, 4, 5], 20),
        more(opening, 5)
    );
    Ok(())
}

/// What is read ahead is at most four times what was read before, and at most 262,144 bytes: the first text of 60,000 is
/// read alone, then three more with the front of the next, which begins another window, of four.
#[test]
fn a_text_across_the_end_begins_a_window(rt: HostRuntime) -> Result<(), Fail> {
    let alloc = rt.alloc();
    let mut disk = room_for(alloc, 600_000)?;
    assert!(rt; puts_texts(alloc, &mut disk, 9, 60_000, 0));
    let opening = reads_for(alloc, &mut disk, &[], 60_000);
    assert!(rt; opening.is_some());
    assert_eq!(rt;
        reads_for(alloc, &mut disk, &[1, 2, 3, 4], 60_000),
        more(opening, 2)
    );
    assert_eq!(rt;
        reads_for(alloc, &mut disk, &[1, 2, 3, 4, 5, 6, 7, 8], 60_000),
        more(opening, 3)
    );
    assert_eq!(rt;
        reads_for(alloc, &mut disk, &[1, 2, 3, 4, 5, 6, 7, 8, 9], 60_000),
        more(opening, 4)
    );
    Ok(())
}

/// A text of the largest size is read: with the number of its policy it fills a part.
#[test]
fn a_text_of_the_largest_size_is_read(rt: HostRuntime) -> Result<(), Fail> {
    let alloc = rt.alloc();
    let mut disk = room_for(alloc, 200_000)?;
    assert!(rt; puts_texts(alloc, &mut disk, 2, 65_535, 0));
    let opening = reads_for(alloc, &mut disk, &[], 65_535);
    assert!(rt; opening.is_some());
    assert_eq!(rt;
        reads_for(alloc, &mut disk, &[1, 2], 65_535),
        more(opening, 2)
    );
    Ok(())
}

/// A number that is not held has no text, and is not looked for on the disk.
#[test]
fn a_number_that_is_not_held_has_no_text(rt: HostRuntime) -> Result<(), Fail> {
    let alloc = rt.alloc();
    let mut disk = room_for(alloc, 1000)?;
    assert!(rt; puts_texts(alloc, &mut disk, 2, 20, 0));
    let opening = reads_for(alloc, &mut disk, &[], 20);
    assert!(rt; opening.is_some());
    assert_eq!(rt; reads_for(alloc, &mut disk, &[3], 0), opening);
    Ok(())
}

/// Whichever call fails: where that is a read of texts, the next one fails too, though the disk works again.
#[test]
fn a_failed_read_fails_the_store(rt: HostRuntime) -> Result<(), Fail> {
    let alloc = rt.alloc();
    let mut disk = room_for(alloc, 1000)?;
    assert!(rt; puts_texts(alloc, &mut disk, 2, 20, 0));
    let mut failed = false;
    for call in 1..12 {
        let stays = stays_failed(alloc, &mut failing_copy(alloc, &disk, call)?);
        assert!(rt; stays != Some(false), "at {call}");
        failed = failed || stays.is_some();
    }
    assert!(rt; failed);
    Ok(())
}

/// A disk with the same lists, one call of which fails.
fn failing_copy(alloc: Global, disk: &MemDisk, call: u64) -> Result<MemDisk, ax_disk::Memory> {
    let root = Vec::from_slice(alloc, disk.bytes(Extent::Root))?;
    let a = Vec::from_slice(alloc, disk.bytes(Extent::A))?;
    let b = Vec::from_slice(alloc, disk.bytes(Extent::B))?;
    let failing = vec![in alloc; call; 1]?;
    MemDisk::make(alloc, root, a, b, 100, 100, failing)
}

/// So many more.
fn more(count: Option<u64>, by: u64) -> Option<u64> {
    count.and_then(|count| count.checked_add(by))
}

/// Whether documents 1 to `last` are written to a fresh store, in one frame, with so many bytes of a
/// policy in front of each. Each byte of a text is its number.
fn puts_texts<D: Disk>(alloc: Global, disk: &mut D, last: u8, len: usize, between: usize) -> bool {
    let Ok(_store) = Store::open_store(alloc, disk, NoPages) else {
        return false;
    };
    match frame_of(alloc, last, len, between) {
        Some(frame) => disk.write_at(Extent::A, 0, &frame).is_ok(),
        None => false,
    }
}

/// The frame of the documents, behind an open gate, with a closed one at its end.
fn frame_of(alloc: Global, last: u8, len: usize, between: usize) -> Option<Vec<u8>> {
    let mut parts = PartsText::begin(alloc);
    for number in 1..last {
        adds_document(alloc, &mut parts, number, len, between)?;
    }
    adds_document(alloc, &mut parts, last, len, between)?;
    if parts.is_empty() {
        return None;
    }
    let frame = write_frame(alloc, &parts).ok()?;
    let mut bytes = vec![in alloc; 1; 1].ok()?;
    bytes.extend_from_slice(&frame).ok()?;
    Some(bytes)
}

/// Adds a policy of so many bytes, if that is one, and a document.
fn adds_document(
    alloc: Global,
    parts: &mut PartsText,
    number: u8,
    len: usize,
    between: usize,
) -> Option<()> {
    if between > 0 {
        adds_part(alloc, parts, 2, number, between, 0)?;
    }
    adds_part(alloc, parts, 3, number, len.checked_add(1)?, number)
}

/// Adds a part of so many bytes: 0, and the others as asked.
fn adds_part(
    alloc: Global,
    parts: &mut PartsText,
    kind: u8,
    key: u8,
    len: usize,
    byte: u8,
) -> Option<()> {
    if len > 65_536 {
        return None;
    }
    let mut payload = vec![in alloc; byte; len].ok()?;
    *payload.first_mut()? = 0;
    let part = Part {
        kind,
        key: u32::from(key),
        payload: &payload,
    };
    parts.add(part).ok()
}

/// How often the disk is read while the store is opened and the texts of these numbers are asked for.
/// `None` where one of them is not as it was written.
fn reads_for(alloc: Global, disk: &mut MemDisk, numbers: &[u8], len: usize) -> Option<u64> {
    let before = disk.reads();
    if !shows_all(alloc, disk, numbers, len) {
        return None;
    }
    disk.reads().checked_sub(before)
}

/// Whether the store is opened, and shows the texts of these numbers.
fn shows_all<D: Disk>(alloc: Global, disk: &mut D, numbers: &[u8], len: usize) -> bool {
    let Ok(mut store) = Store::open_store(alloc, disk, NoPages) else {
        return false;
    };
    let mut ahead = ReadAhead::new(alloc);
    shows_each(disk, &mut store, &mut ahead, numbers, len)
}

/// Whether the texts of these numbers are shown.
fn shows_each<D: Disk, C: PageCache>(
    disk: &mut D,
    store: &mut Store<C>,
    ahead: &mut ReadAhead,
    numbers: &[u8],
    len: usize,
) -> bool
    requires agrees { AgreesAheadUnlessFailed C.pages (D.is_honest disk.old) store.old ahead.old
        (D.history disk.old (D.attached disk.old)) }
{
    for number in numbers {
        if !shows(disk, store, ahead, *number, len) {
            return false;
        }
    }
    true
}

/// Whether the text of a number is shown as it was written; of a number that is not held, that it is none.
fn shows<D: Disk, C: PageCache>(
    disk: &mut D,
    store: &mut Store<C>,
    ahead: &mut ReadAhead,
    number: u8,
    len: usize,
) -> bool
    requires agrees { AgreesAheadUnlessFailed C.pages (D.is_honest disk.old) store.old ahead.old
        (D.history disk.old (D.attached disk.old)) }
    ensures agrees { AgreesAheadUnlessFailed C.pages (D.is_honest disk.new) store.new ahead.new
        (D.history disk.new (D.attached disk.new)) }
{
    match store.read_ahead(disk, u32::from(number), ahead) {
        Ok(true) => ahead.text().len() == len && ahead.text().iter().all(|byte| *byte == number),
        Ok(false) => len == 0,
        Err(_) => false,
    }
}

/// Whether a second text is refused after the first one's read failed. `None` where none failed, and
/// where the store is not opened.
fn stays_failed<D: Disk>(alloc: Global, disk: &mut D) -> Option<bool> {
    let Ok(mut store) = Store::open_store(alloc, disk, NoPages) else {
        return None;
    };
    let mut ahead = ReadAhead::new(alloc);
    fails_twice(disk, &mut store, &mut ahead)
}

fn fails_twice<D: Disk, C: PageCache>(
    disk: &mut D,
    store: &mut Store<C>,
    ahead: &mut ReadAhead,
) -> Option<bool>
    requires agrees { AgreesAheadUnlessFailed C.pages (D.is_honest disk.old) store.old ahead.old
        (D.history disk.old (D.attached disk.old)) }
{
    if store.read_ahead(disk, 1, ahead).is_ok() {
        return None;
    }
    Some(store.read_ahead(disk, 2, ahead).is_err())
}
