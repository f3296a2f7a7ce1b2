//! Pairs on several pages, changed by many lists.

ghost use Rattle.ax_index_support.specs.Ready.{IsReady};

use crate::tests::asking::{fresh_disk, numbers};
use ax_cache::{NoPages, PageCache};
use ax_disk::{Disk, MemDisk};
use ax_index::Change;
use ax_index_support::{change, merge, open, put};
use ax_pages::Page;
use ax_store::Store;
use std::alloc::Global;
use std::test::Fail;

/// How many change lists there are.
const LISTS: u32 = 40;

/// How many numbers each list has, each in two pairs.
const NUMBERS: u32 = 38;

/// The term that all numbers share, and what begins the term of one number alone.
const SHARED: &[u8] = &[2, 3, b'a', 0, 1, 1, 5];

const OWN: &[u8] = &[2, 3, b'a', 0, 1, 1, 0x14];

/// What is behind all terms.
const END: &[u8] = &[3];

/// The most that was seen.
#[derive(Clone, Copy, Debug)]
struct Most {
    merged: u32,
    parts: usize,
}

/// The number that a list has at a place of its own.
fn number_of(list: u32, i: u32) -> u32 {
    list.saturating_add(i.saturating_mul(LISTS))
}

/// A list of changes, over all terms: every so many-th number from one on.
fn list_of(alloc: Global, add: bool, list: u32) -> Result<Vec<Change>, Fail> {
    let mut changes = Vec::new(alloc);
    for i in 0..NUMBERS {
        put(alloc, &mut changes, add, SHARED, number_of(list, i))?;
    }
    for i in 0..NUMBERS {
        put_own(alloc, &mut changes, add, number_of(list, i))?;
    }
    Ok(changes)
}

/// Puts a change of a term that one number alone has.
fn put_own(alloc: Global, changes: &mut Vec<Change>, add: bool, number: u32) -> Result<(), Fail> {
    let mut term = Vec::from_slice(alloc, OWN)?;
    term.extend_from_slice(&u64::from(number).to_be_bytes())?;
    Ok(put(alloc, changes, add, term.as_slice(), number)?)
}

/// Makes all changes, list by list.
fn change_all<D: Disk, C: PageCache>(
    alloc: Global,
    disk: &mut D,
    store: &mut Store<C>,
    add: bool,
) -> Result<Most, Fail>
    requires { IsReady C.pages store.old (D.is_honest disk.old) (D.history disk.old (D.attached disk.old)) }
    ensures { IsReady C.pages store.new (D.is_honest disk.new) (D.history disk.new (D.attached disk.new)) }
{
    let mut most = Most {
        merged: 0,
        parts: 0,
    };
    for list in 0..LISTS {
        let changes = list_of(alloc, add, list)?;
        let merged = change(alloc, disk, store, changes.as_slice())?;
        most = Most {
            merged: most.merged.max(merged),
            parts: most.parts.max(most_parts(store)),
        };
    }
    Ok(most)
}

/// Merges four pages at a time, as often as there are lists, and answers how many were merged last.
fn merge_all<D: Disk, C: PageCache>(
    alloc: Global,
    disk: &mut D,
    store: &mut Store<C>,
) -> Result<u32, Fail>
    requires { IsReady C.pages store.old (D.is_honest disk.old) (D.history disk.old (D.attached disk.old)) }
    ensures { IsReady C.pages store.new (D.is_honest disk.new) (D.history disk.new (D.attached disk.new)) }
{
    let mut last = 0;
    for round in 0..LISTS {
        last = merge(alloc, disk, store, 4)?;
    }
    Ok(last)
}

/// How many parts the page has that has the most.
fn most_parts<C>(store: &Store<C>) -> usize {
    let mut most = 0;
    for page in 0..store.pages() {
        most = most.max(store.parts(Page::Term(page)));
    }
    most
}

/// Whether these are the numbers from 0 on, as many as all lists have.
fn are_all(numbers: &[u32]) -> bool {
    for (i, number) in numbers.iter().enumerate() {
        if i != *number as usize {
            return false;
        }
    }
    numbers.len() == (LISTS * NUMBERS) as usize
}

/// Whether all numbers are found by both kinds of term together, and by each alone.
fn all_are_found<D: Disk, C: PageCache>(
    alloc: Global,
    disk: &mut D,
    store: &mut Store<C>,
) -> Result<bool, Fail>
    requires { IsReady C.pages store.old (D.is_honest disk.old) (D.history disk.old (D.attached disk.old)) }
    ensures { IsReady C.pages store.new (D.is_honest disk.new) (D.history disk.new (D.attached disk.new)) }
{
    let both = numbers(alloc, disk, store, b"", END)?;
    let shared = numbers(alloc, disk, store, SHARED, OWN)?;
    let own = numbers(alloc, disk, store, OWN, END)?;
    Ok(are_all(both.as_slice()) && are_all(shared.as_slice()) && are_all(own.as_slice()))
}

/// What a store that is opened on a disk finds.
#[derive(Clone, Copy)]
struct Found {
    all: bool,
    pages: u32,
    most_parts: usize,
}

fn found_on<D: Disk>(alloc: Global, disk: &mut D) -> Result<Found, Fail> {
    let mut store = open(alloc, disk, NoPages)?;
    let all = all_are_found(alloc, disk, &mut store)?;
    Ok(Found {
        all,
        pages: store.pages(),
        most_parts: most_parts(&store),
    })
}

/// Opens the store and makes all changes.
fn changed<D: Disk>(alloc: Global, disk: &mut D, add: bool) -> Result<Most, Fail> {
    let mut store = open(alloc, disk, NoPages)?;
    change_all(alloc, disk, &mut store, add)
}

/// Opens the store and merges two pages at most, and then all: how many were merged first and last.
fn merged<D: Disk>(alloc: Global, disk: &mut D) -> Result<(u32, u32), Fail> {
    let mut store = open(alloc, disk, NoPages)?;
    let first = merge(alloc, disk, &mut store, 2)?;
    let last = merge_all(alloc, disk, &mut store)?;
    Ok((first, last))
}

/// How many numbers are found on a disk.
fn count_on<D: Disk>(alloc: Global, disk: &mut D) -> Result<usize, Fail> {
    let mut store = open(alloc, disk, NoPages)?;
    let found = numbers(alloc, disk, &mut store, b"", END)?;
    Ok(found.len())
}

/// Drops the pairs of one list: how many pages were merged, and how often the disk was read.
fn dropped_once(alloc: Global, disk: &mut MemDisk) -> Result<(u32, u64), Fail> {
    let changes = list_of(alloc, false, 0)?;
    let mut store = open(alloc, disk, NoPages)?;
    let before = disk.reads();
    let merged = change(alloc, disk, &mut store, changes.as_slice())?;
    Ok((merged, disk.reads().abs_diff(before)))
}

#[test]
fn many_pairs_are_split_merged_and_dropped(rt: HostRuntime) -> Result<(), Fail> {
    let alloc = rt.alloc();
    let mut disk = fresh_disk(alloc, 1 << 22)?;
    let most = changed(alloc, &mut disk, true)?;
    assert!(rt; most.merged > 0 && most.merged <= 16, "{}", most.merged);
    assert!(rt; most.parts > 8 && most.parts <= 17, "{}", most.parts);
    let split = found_on(alloc, &mut disk)?;
    assert!(rt; split.all && split.pages > 1 && split.most_parts > 1);

    assert_eq!(rt; merged(alloc, &mut disk)?, (2, 0));
    let whole = found_on(alloc, &mut disk)?;
    assert!(rt; whole.all && whole.pages >= split.pages && whole.most_parts == 1);

    // Changes on several pages that merge none read nothing.
    assert_eq!(rt; dropped_once(alloc, &mut disk)?, (0, 0));

    let most = changed(alloc, &mut disk, false)?;
    assert!(rt; most.merged > 0 && most.merged <= 16, "{}", most.merged);
    assert!(rt; most.parts <= 17, "{}", most.parts);
    assert_eq!(rt; count_on(alloc, &mut disk)?, 0);
    Ok(())
}
