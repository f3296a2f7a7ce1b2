//! The largest lists.

use crate::tests::asking::{fresh_disk, numbers};
use ax_cache::NoPages;
use ax_disk::Disk;
use ax_index::Change;
use ax_index_support::{change, open, put};
use std::alloc::Global;
use std::test::Fail;

/// How many bytes the longest terms have.
const LONGEST: usize = 4096;

/// Changes that add so many numbers to each of 20 longest terms.
fn long_list(alloc: Global, count: u32) -> Result<Vec<Change>, Fail> {
    let mut changes = Vec::new(alloc);
    for letter in b'a'..=b't' {
        let mut term = Vec::new(alloc);
        term.resize(LONGEST, letter)?;
        put_numbers(alloc, &mut changes, term.as_slice(), count)?;
    }
    Ok(changes)
}

/// Puts changes that add the numbers from 0 on to a term, so many.
fn put_numbers(
    alloc: Global,
    changes: &mut Vec<Change>,
    term: &[u8],
    count: u32,
) -> Result<(), Fail> {
    for number in 0..count {
        put(alloc, changes, true, term, number)?;
    }
    Ok(())
}

/// Opens the store and makes changes: how many pages were merged, and how many there are.
fn changed<D: Disk>(alloc: Global, disk: &mut D, changes: &[Change]) -> Result<(u32, u32), Fail> {
    let mut store = open(alloc, disk, NoPages)?;
    let merged = change(alloc, disk, &mut store, changes)?;
    Ok((merged, store.pages()))
}

/// The numbers that a store that is opened on a disk finds in a range.
fn found_on<D: Disk>(
    alloc: Global,
    disk: &mut D,
    from: &[u8],
    below: &[u8],
) -> Result<Vec<u32>, Fail> {
    let mut store = open(alloc, disk, NoPages)?;
    numbers(alloc, disk, &mut store, from, below)
}

// The first list is put as deltas, and the second merges the page.
#[test]
fn the_longest_terms_are_kept(rt: HostRuntime) -> Result<(), Fail> {
    let alloc = rt.alloc();
    let mut disk = fresh_disk(alloc, 1 << 22)?;
    let first = long_list(alloc, 2)?;
    assert_eq!(rt; changed(alloc, &mut disk, first.as_slice())?, (0, 1));
    let second = long_list(alloc, 7)?;
    assert_eq!(rt; changed(alloc, &mut disk, second.as_slice())?, (1, 20));
    let found = found_on(alloc, &mut disk, b"t", b"u")?;
    assert_eq!(rt; found.as_slice(), [0, 1, 2, 3, 4, 5, 6].as_slice());
    Ok(())
}

#[test]
fn a_long_list_is_merged_and_split(rt: HostRuntime) -> Result<(), Fail> {
    let alloc = rt.alloc();
    let mut disk = fresh_disk(alloc, 1 << 20)?;
    let mut changes = Vec::new(alloc);
    put_numbers(alloc, &mut changes, b"a", 5000)?;
    assert_eq!(rt; changed(alloc, &mut disk, changes.as_slice())?, (1, 2));
    assert_eq!(rt; found_on(alloc, &mut disk, b"a", b"b")?.len(), 5000);
    Ok(())
}
