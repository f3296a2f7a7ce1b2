//! A batch of many parts.

ghost use Rattle.std.specs.Prelude.{IsTrue};
ghost use Rattle.ax_store.specs.Store.{Agrees};

use super::room_for;
use ax_cache::{NoPages, PageCache};
use ax_disk::Disk;
use ax_frame::Part;
use ax_pages::Page;
use ax_store::{Batch, Store, StoreFault};
use std::alloc::Global;
use std::test::Fail;

/// The text of a policy.
const POLICY: [u8; 1] = [7];

/// Room is made for 5,000 parts, and once more where it is there already; then as many are committed
/// in one batch. They are there when the store is opened again.
#[test]
fn five_thousand_parts_are_committed(rt: HostRuntime) -> Result<(), Fail> {
    let alloc = rt.alloc();
    let mut disk = room_for(alloc, 60_000)?;
    assert!(rt; puts_parts(alloc, &mut disk, 4_999));
    assert_eq!(rt; place_of_last(alloc, &mut disk), Some((1, 49_999)));
    Ok(())
}

/// Whether so many parts, and one more, are committed to the store of a disk.
fn puts_parts<D: Disk>(alloc: Global, disk: &mut D, count: u16) -> bool {
    match Store::open_store(alloc, disk, NoPages) {
        Ok(mut store) => commit_parts(alloc, disk, &mut store, count).is_ok(),
        Err(_) => false,
    }
}

/// Where the part of the policy stands that counts: behind gate, length, and the other parts, each of
/// ten bytes.
fn place_of_last<D: Disk>(alloc: Global, disk: &mut D) -> Option<(u8, u64)> {
    let Ok(store) = Store::open_store(alloc, disk, NoPages) else {
        return None;
    };
    if store.parts(Page::Policy(1)) != 1 {
        return None;
    }
    Some(store.place(Page::Policy(1), 0))
}

/// Commits so many parts, and one more, each of which gives policy 1 its text.
fn commit_parts<D: Disk, C: PageCache>(
    alloc: Global,
    disk: &mut D,
    store: &mut Store<C>,
    count: u16,
) -> Result<(), StoreFault>
    requires agrees { IsTrue (D.is_honest disk.old) → Agrees C.pages store.old (D.history disk.old (D.attached disk.old)) }
{
    let mut batch = Batch::begin(alloc);
    let part = Part {
        kind: 2,
        key: 1,
        payload: &POLICY,
    };
    for _made in 0..count {
        let Ok(()) = batch.add(alloc, part) else {
            return Err(StoreFault::Memory);
        };
    }
    let Ok(()) = batch.add(alloc, part) else {
        return Err(StoreFault::Memory);
    };
    let Ok(batch) = batch.seal(alloc) else {
        return Err(StoreFault::Memory);
    };
    let Ok(()) = store.reserve(batch.parts()) else {
        return Err(StoreFault::Memory);
    };
    let Ok(()) = store.reserve(batch.parts()) else {
        return Err(StoreFault::Memory);
    };
    store.commit(disk, batch)
}
