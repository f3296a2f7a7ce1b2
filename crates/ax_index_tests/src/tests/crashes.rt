//! A change that the disk stops: what is found later is what was there before it or after it, whole.

use crate::tests::asking::{fresh_disk, numbers};
use ax_cache::NoPages;
use ax_disk::{Extent, FuseDisk, MemDisk};
use ax_index::Change;
use ax_index_support::{change, open, put};
use ax_store::Store;
use std::alloc::Global;
use std::test::Fail;

/// How many pairs there may be.
const PAIRS: u32 = 160;

/// The term of every pair of one kind.
fn term_of(number: u32) -> [u8; 64] {
    [number.min(255) as u8; 64]
}

/// Rising changes: the first list adds every fourth pair, and the second drops every eighth and adds the
/// others.
fn list_of(alloc: Global, step: u32, dropped: u32) -> Result<Vec<Change>, Fail> {
    let mut changes = Vec::new(alloc);
    for number in 0..PAIRS {
        if number % step.max(1) == 0 {
            let add = number % 8 >= dropped;
            put(alloc, &mut changes, add, &term_of(number), number)?;
        }
    }
    Ok(changes)
}

/// The numbers that are found on a disk.
fn found_on(alloc: Global, disk: &mut MemDisk) -> Result<Vec<u32>, Fail> {
    let mut store = open(alloc, disk, NoPages)?;
    numbers(alloc, disk, &mut store, &[0], &[255])
}

/// A disk on which the first list was committed.
fn begun_disk(alloc: Global) -> Result<MemDisk, Fail> {
    let mut disk = fresh_disk(alloc, 1 << 17)?;
    let mut store = open(alloc, &mut disk, NoPages)?;
    let first = list_of(alloc, 4, 0)?;
    change(alloc, &mut disk, &mut store, first.as_slice())?;
    Ok(disk)
}

/// A disk with the lists that another has, all synced.
fn copy_of(alloc: Global, disk: &MemDisk) -> Result<MemDisk, Fail> {
    let root = Vec::from_slice(alloc, disk.bytes(Extent::Root))?;
    let a = Vec::from_slice(alloc, disk.bytes(Extent::A))?;
    let b = Vec::from_slice(alloc, disk.bytes(Extent::B))?;
    Ok(MemDisk::make(alloc, root, a, b, 1 << 17, 100, Vec::new(alloc))?)
}

/// Whether the second list is committed where so many calls of the disk succeed, and what is found on
/// it after a crash.
fn stopped(
    alloc: Global,
    mut disk: MemDisk,
    calls: u64,
    keep: bool,
) -> Result<(bool, Vec<u32>), Fail> {
    let mut store = open(alloc, &mut disk, NoPages)?;
    let second = list_of(alloc, 1, 1)?;
    let mut fuse = FuseDisk::make(disk, calls);
    let done = change(alloc, &mut fuse, &mut store, second.as_slice()).is_ok();
    let mut disk = fuse.into_inner();
    disk.crash(keep);
    let found = found_on(alloc, &mut disk)?;
    Ok((done, found))
}

/// Whether these are the numbers of the pairs that are there before the second list, or after it.
fn is_so(found: &[u32], second: bool) -> bool {
    let wanted = (0..PAIRS).filter(|number| if second {
        number % 8 >= 1
    } else {
        number % 4 == 0
    });
    found.iter().copied().eq(wanted)
}

// The one part of the page is read. A commit makes four calls, and the last opens the gate for good.
#[test]
fn a_stopped_change_is_made_whole_or_not(rt: HostRuntime) -> Result<(), Fail> {
    let alloc = rt.alloc();
    let begun = begun_disk(alloc)?;
    for calls in 1..6 {
        for keep in [true, false] {
            let disk = copy_of(alloc, &begun)?;
            let (done, found) = stopped(alloc, disk, calls, keep)?;
            assert_eq!(rt; done, calls == 5, "{calls} {keep}");
            let old = is_so(found.as_slice(), false);
            let new = is_so(found.as_slice(), true);
            assert!(rt; old || new, "{calls} {keep}");
            assert!(rt; new || !done, "{calls} {keep}");
            assert!(rt; old || calls > 3, "{calls} {keep}");
        }
    }
    Ok(())
}
