//! Numbers with a term in each of several unions of ranges: those of one point are looked up first, then those of
//! several, and none more once no number is left.

use crate::tests::asking::{changes_of_rows, fresh_disk, range_of};
use ax_cache::NoPages;
use ax_candidates::candidates;
use ax_disk::MemDisk;
use ax_index::TermRange;
use ax_index_support::{change, open};
use ax_mean::Items;
use std::alloc::Global;
use std::test::Fail;

/// Which terms each number has.
const ROWS: &[(bool, &[u8], u32)] = &[
    (true, b"a1", 1),
    (true, b"a1", 3),
    (true, b"a2", 2),
    (true, b"b1", 1),
    (true, b"b2", 3),
    (true, b"b3", 5),
];

/// The first bytes of the terms of ranges, and those before which they end.
type Ends<'a> = &'a [(&'a [u8], &'a [u8])];

/// The unions of the ranges between these terms.
fn unions_of(alloc: Global, ends: &[Ends<'_>]) -> Result<Vec<Items<TermRange>>, Fail> {
    let mut unions = Vec::new(alloc);
    for union in ends {
        let mut ranges = Vec::new(alloc);
        for (from, below) in *union {
            ranges.push(range_of(alloc, from, below)?)?;
        }
        unions.push(Items::from_vec(ranges))?;
    }
    Ok(unions)
}

/// The candidates, and how often the disk is read for them.
#[derive(Drop)]
struct Found {
    numbers: Vec<u32>,
    reads: Option<u64>,
}

/// What is found in the unions of ranges between these terms.
fn found_in(alloc: Global, disk: &mut MemDisk, ends: &[Ends<'_>]) -> Result<Found, Fail> {
    let unions = unions_of(alloc, ends)?;
    let mut store = open(alloc, disk, NoPages)?;
    let before = disk.reads();
    if unions.is_empty() {
        return Err(Fail::new("no unions"));
    }
    let numbers = candidates(alloc, &mut store, disk, unions.as_slice())?;
    let reads = disk.reads().checked_sub(before);
    Ok(Found { numbers, reads })
}

impl Found {
    /// Whether these numbers were found, by so many reads.
    fn is(&self, numbers: &[u32], reads: u64) -> bool {
        self.numbers.as_slice() == numbers && self.reads == Some(reads)
    }
}

#[test]
fn candidates_have_a_term_in_each_union(rt: HostRuntime) -> Result<(), Fail> {
    let alloc = rt.alloc();
    let mut disk = fresh_disk(alloc, 1 << 20)?;
    let mut store = open(alloc, &mut disk, NoPages)?;
    let changes = changes_of_rows(alloc, ROWS)?;
    change(alloc, &mut disk, &mut store, changes.as_slice())?;

    let one = found_in(alloc, &mut disk, &[&[(b"a1", b"a1\x00")]])?;
    assert!(rt; one.is(&[1, 3], 1));
    let both = found_in(
        alloc,
        &mut disk,
        &[&[(b"a1", b"b")], &[(b"b2", b"b2\x00"), (b"b3", b"b3\x00")]],
    )?;
    assert!(rt; both.is(&[3], 2));
    let three = found_in(
        alloc,
        &mut disk,
        &[&[(b"a", b"b")], &[(b"b", b"c")], &[(b"a2", b"b2")]],
    )?;
    assert!(rt; three.is(&[1], 3));
    Ok(())
}

#[test]
fn no_union_is_read_once_no_number_is_left(rt: HostRuntime) -> Result<(), Fail> {
    let alloc = rt.alloc();
    let mut disk = fresh_disk(alloc, 1 << 20)?;
    let mut store = open(alloc, &mut disk, NoPages)?;
    let changes = changes_of_rows(alloc, ROWS)?;
    change(alloc, &mut disk, &mut store, changes.as_slice())?;

    let none = found_in(
        alloc,
        &mut disk,
        &[&[(b"a", b"b")], &[(b"b4", b"b4\x00")], &[(b"b", b"c")]],
    )?;
    assert!(rt; none.is(&[], 1));
    let apart = found_in(
        alloc,
        &mut disk,
        &[&[(b"a2", b"a3")], &[(b"b", b"c")], &[(b"a", b"b")]],
    )?;
    assert!(rt; apart.is(&[], 2));
    Ok(())
}

/// A union of several points, each of which has a number.
const SEVERAL: Ends<'static> = &[
    (b"a1", b"a1\x00"),
    (b"a2", b"a2\x00"),
    (b"b1", b"b1\x00"),
    (b"b2", b"b2\x00"),
    (b"b3", b"b3\x00"),
];

// Wherever it stands, a union of one point or none is looked up before one of several, and this before the others.
#[test]
fn several_points_are_read_only_where_one_point_leaves_a_number(
    rt: HostRuntime,
) -> Result<(), Fail> {
    let alloc = rt.alloc();
    let mut disk = fresh_disk(alloc, 1 << 20)?;
    let mut store = open(alloc, &mut disk, NoPages)?;
    let changes = changes_of_rows(alloc, ROWS)?;
    change(alloc, &mut disk, &mut store, changes.as_slice())?;

    let alone = found_in(alloc, &mut disk, &[&[(b"b4", b"b4\x00")]])?;
    assert!(rt; alone.is(&[], 1));
    let none = found_in(alloc, &mut disk, &[SEVERAL, &[(b"b4", b"b4\x00")]])?;
    assert!(rt; none.is(&[], 1));
    let nothing = found_in(alloc, &mut disk, &[SEVERAL, &[]])?;
    assert!(rt; nothing.is(&[], 0));
    let some = found_in(alloc, &mut disk, &[SEVERAL, &[(b"a2", b"a2\x00")]])?;
    assert!(rt; some.is(&[2], 2));
    let before_others = found_in(
        alloc,
        &mut disk,
        &[&[(b"a", b"c")], &[(b"b4", b"b4\x00"), (b"b5", b"b5\x00")]],
    )?;
    assert!(rt; before_others.is(&[], 1));
    Ok(())
}
