//! The number of the document of an id: of ids that begin one another, over a page with deltas and over its base.

ghost use Rattle.ax_index_support.specs.Ready.{IsReady};

use crate::tests::asking::fresh_disk;
use ax_cache::{NoPages, PageCache};
use ax_disk::Disk;
use ax_index::{Change, StoreFault, number_of};
use ax_index_support::{change, merge, open, put};
use ax_store::Store;
use ax_term::id_term;
use std::alloc::Global;
use std::test::Fail;

/// The longest id, and one that begins it.
const LONGEST: &[u8] = &[b'x'; 255];

const SHORTER: &[u8] = &[b'x'; 254];

const FIRST: &[(bool, &[u8], u32)] = &[
    (true, b"a", 4),
    (true, b"a\0", 3),
    (true, b"ab", 2),
    (true, b"abc", 1),
    (true, b"b", 5),
    (true, b"b", 8),
    (true, SHORTER, 7),
    (true, LONGEST, 6),
];

/// Drops one that begins another and is begun by a third, and the lesser number of an id with two.
const SECOND: &[(bool, &[u8], u32)] = &[
    (false, b"ab", 2),
    (false, b"b", 5),
    (true, b"c", 0),
    (false, LONGEST, 6),
    (true, LONGEST, 9),
];

/// What is found behind the first list.
const AT_FIRST: &[(&[u8], Option<u32>)] = &[
    (b"", None),
    (b"a", Some(4)),
    (b"a\0", Some(3)),
    (b"a\0\0", None),
    (b"aa", None),
    (b"ab", Some(2)),
    (b"abc", Some(1)),
    (b"abcd", None),
    (b"b", Some(5)),
    (b"c", None),
    (SHORTER, Some(7)),
    (LONGEST, Some(6)),
];

/// What is found behind the second.
const THEN: &[(&[u8], Option<u32>)] = &[
    (b"", None),
    (b"a", Some(4)),
    (b"a\0", Some(3)),
    (b"aa", None),
    (b"ab", None),
    (b"abc", Some(1)),
    (b"b", Some(8)),
    (b"c", Some(0)),
    (SHORTER, Some(7)),
    (LONGEST, Some(9)),
];

/// Changes of the pairs of ids.
fn changes_of_ids(alloc: Global, rows: &[(bool, &[u8], u32)]) -> Result<Vec<Change>, Fail> {
    let mut changes = Vec::new(alloc);
    for (add, id, number) in rows {
        let term = id_term(alloc, id)?;
        put(alloc, &mut changes, *add, term.as_slice(), *number)?;
    }
    Ok(changes)
}

/// The number that is found for an id.
fn found<D: Disk, C: PageCache>(
    alloc: Global,
    disk: &mut D,
    store: &mut Store<C>,
    id: &[u8],
) -> Result<Option<u32>, StoreFault>
    requires { IsReady C.pages store.old (D.is_honest disk.old) (D.history disk.old (D.attached disk.old)) }
    ensures { IsReady C.pages store.new (D.is_honest disk.new) (D.history disk.new (D.attached disk.new)) }
{
    number_of(alloc, store, disk, id)
}

/// Whether each id has its number.
fn are_found<D: Disk, C: PageCache>(
    alloc: Global,
    disk: &mut D,
    store: &mut Store<C>,
    rows: &[(&[u8], Option<u32>)],
) -> Result<bool, Fail>
    requires { IsReady C.pages store.old (D.is_honest disk.old) (D.history disk.old (D.attached disk.old)) }
    ensures { IsReady C.pages store.new (D.is_honest disk.new) (D.history disk.new (D.attached disk.new)) }
{
    for row in rows {
        let (id, number) = *row;
        if found(alloc, disk, store, id)? != number {
            return Ok(false);
        }
    }
    Ok(true)
}

/// How many pages a call merged, and whether each id has its number behind it.
#[derive(Clone, Copy)]
struct Behind {
    merged: u32,
    found: bool,
}

/// Opens the store on a disk and makes the changes.
fn behind_changes<D: Disk>(
    alloc: Global,
    disk: &mut D,
    changes: &[Change],
    rows: &[(&[u8], Option<u32>)],
) -> Result<Behind, Fail> {
    let mut store = open(alloc, disk, NoPages)?;
    let merged = change(alloc, disk, &mut store, changes)?;
    let found = are_found(alloc, disk, &mut store, rows)?;
    Ok(Behind { merged, found })
}

/// Opens the store on a disk and merges a page.
fn behind_a_merge<D: Disk>(
    alloc: Global,
    disk: &mut D,
    rows: &[(&[u8], Option<u32>)],
) -> Result<Behind, Fail> {
    let mut store = open(alloc, disk, NoPages)?;
    let merged = merge(alloc, disk, &mut store, 1)?;
    let found = are_found(alloc, disk, &mut store, rows)?;
    Ok(Behind { merged, found })
}

#[test]
fn an_id_is_found_by_all_its_bytes(rt: HostRuntime) -> Result<(), Fail> {
    let alloc = rt.alloc();
    let mut disk = fresh_disk(alloc, 1 << 16)?;
    let first = changes_of_ids(alloc, FIRST)?;
    let second = changes_of_ids(alloc, SECOND)?;
    let at_first = behind_changes(alloc, &mut disk, first.as_slice(), AT_FIRST)?;
    assert!(rt; at_first.merged == 0 && at_first.found);
    let then = behind_changes(alloc, &mut disk, second.as_slice(), THEN)?;
    assert!(rt; then.merged == 0 && then.found);
    let whole = behind_a_merge(alloc, &mut disk, THEN)?;
    assert!(rt; whole.merged == 1 && whole.found);
    Ok(())
}
