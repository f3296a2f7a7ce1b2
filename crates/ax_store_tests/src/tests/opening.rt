//! Each call that opening makes fails in turn: it is told, until none is left that could fail.

use ax_cache::NoPages;
use ax_disk::{Disk, Extent, MemDisk};
use ax_store::{Store, StoreFault};
use std::alloc::Global;
use std::test::Fail;

/// An area with one frame of 12 bytes: document 1 under policy 0, whose text is `{}`.
const DOCUMENT: [u8; 22] = [
    1, 12, 0, 0, 0, 0, 0, 0, 0, 3, 1, 0, 0, 0, 3, 0, 0, 0, 0, b'{', b'}', 0,
];

/// The same frame with a part of kind 11, which is none.
const NO_KIND: [u8; 22] = [
    1, 12, 0, 0, 0, 0, 0, 0, 0, 11, 1, 0, 0, 0, 3, 0, 0, 0, 0, b'{', b'}', 0,
];

/// Opening makes these calls: a sync, the length of the root, its two slots, the length of the area, a read
/// that finds the frame, and one that reads its parts.
const CALLS: Option<u64> = Some(7);

/// A failing call is told as a disk that failed, wherever it is; where none fails the store is opened, with its
/// document.
#[test]
fn a_failed_call_is_told(rt: HostRuntime) -> Result<(), Fail> {
    let alloc = rt.alloc();
    let root = new_root(alloc)?;
    let made = calls_told(alloc, &root, &DOCUMENT, Ok(1))?;
    assert_eq!(rt; made, CALLS);
    Ok(())
}

/// So it is over a part that is none; where no call fails the answer is its place.
#[test]
fn a_part_that_is_none_is_told(rt: HostRuntime) -> Result<(), Fail> {
    let alloc = rt.alloc();
    let root = new_root(alloc)?;
    let damaged = StoreFault::Damaged { extent: 1, at: 9 };
    let made = calls_told(alloc, &root, &NO_KIND, Err(damaged))?;
    assert_eq!(rt; made, CALLS);
    Ok(())
}

/// How many calls opening makes each of which is told where it fails, before opening answers this, where
/// none does. `None` where another answer comes first.
fn calls_told(
    alloc: Global,
    root: &[u8],
    area: &[u8],
    answer: Result<usize, StoreFault>,
) -> Result<Option<u64>, Fail> {
    for made in 0..50 {
        let found = opening(alloc, &mut disk_with(alloc, root, area, made + 1)?);
        if found == answer {
            return Ok(Some(made));
        }
        if found != Err(StoreFault::Disk) {
            return Ok(None);
        }
    }
    Ok(None)
}

/// How many documents the store has that is opened, or why none is.
fn opening<D: Disk>(alloc: Global, disk: &mut D) -> Result<usize, StoreFault> {
    match Store::open_store(alloc, disk, NoPages) {
        Ok(store) => Ok(store.documents()),
        Err(fault) => Err(fault),
    }
}

/// The root of a new store.
fn new_root(alloc: Global) -> Result<Vec<u8>, Fail> {
    let mut disk = disk_with(alloc, &[], &[], 0)?;
    opening(alloc, &mut disk).map_err(|_| "no store is formed")?;
    Ok(Vec::from_slice(alloc, disk.bytes(Extent::Root))?)
}

/// A disk with these lists, of which one call fails; 0 is none.
fn disk_with(
    alloc: Global,
    root: &[u8],
    area: &[u8],
    failing: u64,
) -> Result<MemDisk, ax_disk::Memory> {
    let root = Vec::from_slice(alloc, root)?;
    let area = Vec::from_slice(alloc, area)?;
    let failing = vec![in alloc; failing; 1]?;
    MemDisk::make(alloc, root, area, Vec::new(alloc), 1000, 100, failing)
}
