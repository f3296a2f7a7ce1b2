//! The bytes of a page that has two documents, one of which was replaced.

use crate::tests::asking::{changes_of_rows, fresh_disk};
use ax_cache::NoPages;
use ax_disk::{Disk, Extent};
use ax_index_support::{change, merge, open};
use std::alloc::Global;
use std::test::Fail;

/// The terms: the ids a and b, and 5 and 6 at the member a.
const ID_A: &[u8] = &[1, b'a'];

const ID_B: &[u8] = &[1, b'b'];

const FIVE: &[u8] = &[2, 3, b'a', 0, 1, 1, 0x14, 0x80, 0, 0, 0, 0, 0, 0, 5];

const SIX: &[u8] = &[2, 3, b'a', 0, 1, 1, 0x14, 0x80, 0, 0, 0, 0, 0, 0, 6];

/// The base with document 1.
const FIRST_BASE: &[u8] = &[
    0, 0, 2, 0, 2, 1, b'a', 1, 1, 0, 15, 2, 3, b'a', 0, 1, 1, 0x14, 0x80, 0, 0, 0, 0, 0, 0, 5, 1, 1,
];

/// The delta by which document 2 comes.
const SECOND_DELTA: &[u8] = &[
    2, 0, 2, 1, b'b', 1, 2, 0, 0, 15, 2, 3, b'a', 0, 1, 1, 0x14, 0x80, 0, 0, 0, 0, 0, 0, 5, 1, 2, 0,
];

/// The delta by which document 1 is replaced.
const THIRD_DELTA: &[u8] = &[
    2, 0, 15, 2, 3, b'a', 0, 1, 1, 0x14, 0x80, 0, 0, 0, 0, 0, 0, 5, 0, 1, 1, 14, 1, 6, 1, 1, 0,
];

/// The base of both.
const MERGED_BASE: &[u8] = &[
    0, 0, 4, 0, 2, 1, b'a', 1, 1, 1, 1, b'b', 1, 2, 0, 15, 2, 3, b'a', 0, 1, 1, 0x14, 0x80, 0, 0,
    0, 0, 0, 0, 5, 1, 2, 14, 1, 6, 1, 1,
];

/// Whether a payload stands anywhere in the bytes.
fn has_payload(bytes: &[u8], payload: &[u8]) -> bool {
    for i in 0..bytes.len() {
        let (_, rest) = bytes.split_at(i);
        if rest.starts_with(payload) {
            return true;
        }
    }
    false
}

/// Document 1 comes and is merged, document 2 comes, document 1 is replaced, and the page is merged.
fn write_page<D: Disk>(alloc: Global, disk: &mut D) -> Result<u32, Fail> {
    let mut store = open(alloc, disk, NoPages)?;
    let first = changes_of_rows(alloc, &[(true, ID_A, 1), (true, FIVE, 1)])?;
    change(alloc, disk, &mut store, first.as_slice())?;
    merge(alloc, disk, &mut store, 1)?;
    let second = changes_of_rows(alloc, &[(true, ID_B, 2), (true, FIVE, 2)])?;
    change(alloc, disk, &mut store, second.as_slice())?;
    let third = changes_of_rows(alloc, &[(false, FIVE, 1), (true, SIX, 1)])?;
    change(alloc, disk, &mut store, third.as_slice())?;
    Ok(merge(alloc, disk, &mut store, 1)?)
}

#[test]
fn the_parts_of_a_page_are_these_bytes(rt: HostRuntime) -> Result<(), Fail> {
    let alloc = rt.alloc();
    let mut disk = fresh_disk(alloc, 4096)?;
    assert_eq!(rt; write_page(alloc, &mut disk)?, 1);
    let area = disk.bytes(Extent::A);
    assert!(rt; has_payload(area, FIRST_BASE));
    assert!(rt; has_payload(area, SECOND_DELTA));
    assert!(rt; has_payload(area, THIRD_DELTA));
    assert!(rt; has_payload(area, MERGED_BASE));
    Ok(())
}
