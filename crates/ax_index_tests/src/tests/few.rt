//! A few pairs, changed and asked.

ghost use Rattle.ax_index_support.specs.Ready.{IsReady};

use crate::tests::asking::{changes_of_rows, fresh_disk, has_pair, numbers};
use ax_cache::{NoPages, PageCache};
use ax_disk::{Disk, MemDisk};
use ax_index_support::{change, open};
use ax_store::Store;
use std::alloc::Global;
use std::test::Fail;

/// What the index answers of a few pairs and ranges.
#[derive(Drop)]
struct Answers {
    has: [bool; 5],
    all: Vec<u32>,
    of_b: Vec<u32>,
}

/// The answers of a1, a2, b1, b9 and c3, of all terms, and of those from b on and before c.
fn all_answers<D: Disk, C: PageCache>(
    alloc: Global,
    disk: &mut D,
    store: &mut Store<C>,
) -> Result<Answers, Fail>
    requires { IsReady C.pages store.old (D.is_honest disk.old) (D.history disk.old (D.attached disk.old)) }
    ensures { IsReady C.pages store.new (D.is_honest disk.new) (D.history disk.new (D.attached disk.new)) }
{
    let has = [
        has_pair(alloc, disk, store, b"a", 1)?,
        has_pair(alloc, disk, store, b"a", 2)?,
        has_pair(alloc, disk, store, b"b", 1)?,
        has_pair(alloc, disk, store, b"b", 9)?,
        has_pair(alloc, disk, store, b"c", 3)?,
    ];
    let all = numbers(alloc, disk, store, b"", b"d")?;
    let of_b = numbers(alloc, disk, store, b"b", b"c")?;
    Ok(Answers { has, all, of_b })
}

impl Answers {
    /// Whether these are the answers.
    fn are(&self, has: [bool; 5], all: &[u32], of_b: &[u32]) -> bool {
        self.has == has && self.all.as_slice() == all && self.of_b.as_slice() == of_b
    }
}

/// The answers of a store that is opened on a disk.
fn found_on<D: Disk>(alloc: Global, disk: &mut D) -> Result<Answers, Fail> {
    let mut store = open(alloc, disk, NoPages)?;
    all_answers(alloc, disk, &mut store)
}

/// The answers after changes that merge nothing.
fn changed<D: Disk>(
    alloc: Global,
    disk: &mut D,
    rows: &[(bool, &[u8], u32)],
) -> Result<Answers, Fail> {
    let changes = changes_of_rows(alloc, rows)?;
    let mut store = open(alloc, disk, NoPages)?;
    change(alloc, disk, &mut store, changes.as_slice())?;
    all_answers(alloc, disk, &mut store)
}

/// How often the disk is read while rows are put in. `None` where a page is merged.
fn reads_of_a_change(
    alloc: Global,
    disk: &mut MemDisk,
    rows: &[(bool, &[u8], u32)],
) -> Result<Option<u64>, Fail> {
    let changes = changes_of_rows(alloc, rows)?;
    let mut store = open(alloc, disk, NoPages)?;
    let before = disk.reads();
    let merged = change(alloc, disk, &mut store, changes.as_slice())?;
    if merged > 0 {
        return Ok(None);
    }
    Ok(disk.reads().checked_sub(before))
}

const FIRST: &[(bool, &[u8], u32)] = &[
    (true, b"a", 1),
    (true, b"a", 2),
    (true, b"b", 1),
    (false, b"b", 9),
    (true, b"c", 3),
];

/// Adds what is there and drops what is not.
const SECOND: &[(bool, &[u8], u32)] = &[
    (true, b"a", 1),
    (false, b"b", 1),
    (true, b"b", 9),
    (false, b"c", 7),
];

#[test]
fn pairs_are_added_and_dropped(rt: HostRuntime) -> Result<(), Fail> {
    let alloc = rt.alloc();
    let mut disk = fresh_disk(alloc, 4096)?;
    let nothing = found_on(alloc, &mut disk)?;
    assert!(rt; nothing.are([false; 5], &[], &[]));
    let four = changed(alloc, &mut disk, FIRST)?;
    assert!(rt; four.are([true, true, true, false, true], &[1, 2, 3], &[1]));
    let after = changed(alloc, &mut disk, SECOND)?;
    assert!(rt; after.are([true, true, false, true, true], &[1, 2, 3, 9], &[9]));
    let again = found_on(alloc, &mut disk)?;
    assert!(rt; again.are([true, true, false, true, true], &[1, 2, 3, 9], &[9]));
    Ok(())
}

#[test]
fn a_change_that_merges_nothing_reads_nothing(rt: HostRuntime) -> Result<(), Fail> {
    let alloc = rt.alloc();
    let mut disk = fresh_disk(alloc, 4096)?;
    assert_eq!(rt; reads_of_a_change(alloc, &mut disk, FIRST)?, Some(0));
    assert_eq!(rt; reads_of_a_change(alloc, &mut disk, SECOND)?, Some(0));
    Ok(())
}
