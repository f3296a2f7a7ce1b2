//! Numbers with a term in one of several ranges: each page that they reach is read once, and no other.

use crate::tests::asking::fresh_disk;
use ax_cache::NoPages;
use ax_disk::MemDisk;
use ax_index::TermRange;
use ax_index_support::{change, look_in_some, open, put};
use ax_pair::Bytes;
use std::alloc::Global;
use std::test::Fail;

/// How many numbers there are, each with a term of its own.
const NUMBERS: u32 = 2000;

/// The term of a number.
fn term_of(alloc: Global, number: u32) -> Result<Vec<u8>, Fail> {
    let mut term = Vec::from_slice(alloc, b"n")?;
    term.extend_from_slice(&number.to_be_bytes())?;
    Ok(term)
}

/// Puts all numbers in, and answers how many pages they take.
fn filled(alloc: Global, disk: &mut MemDisk) -> Result<u32, Fail> {
    let mut changes = Vec::new(alloc);
    for number in 0..NUMBERS {
        let term = term_of(alloc, number)?;
        put(alloc, &mut changes, true, term.as_slice(), number)?;
    }
    let mut store = open(alloc, disk, NoPages)?;
    change(alloc, disk, &mut store, changes.as_slice())?;
    Ok(store.pages())
}

/// The ranges from the term of one number on and before that of another.
fn ranges_of(alloc: Global, ends: &[(u32, u32)]) -> Result<Vec<TermRange>, Fail> {
    let mut ranges = Vec::new(alloc);
    for (from, below) in ends {
        let from = Bytes::from_vec(term_of(alloc, *from)?);
        let below = Bytes::from_vec(term_of(alloc, *below)?);
        ranges.push(TermRange { from, below })?;
    }
    Ok(ranges)
}

/// The numbers of ranges, and how often the disk is read for them.
#[derive(Drop)]
struct Found {
    numbers: Vec<u32>,
    reads: Option<u64>,
}

/// What is found in the ranges between these numbers.
fn look_between(alloc: Global, disk: &mut MemDisk, ends: &[(u32, u32)]) -> Result<Found, Fail> {
    let ranges = ranges_of(alloc, ends)?;
    let mut store = open(alloc, disk, NoPages)?;
    let before = disk.reads();
    let numbers = look_in_some(alloc, disk, &mut store, ranges.as_slice())?;
    let reads = disk.reads().checked_sub(before);
    Ok(Found { numbers, reads })
}

impl Found {
    /// Whether these numbers were found, by so many reads.
    fn is(&self, numbers: &[u32], reads: u64) -> bool {
        self.numbers.as_slice() == numbers && self.reads == Some(reads)
    }
}

#[test]
fn each_page_of_some_ranges_is_read_once(rt: HostRuntime) -> Result<(), Fail> {
    let alloc = rt.alloc();
    let mut disk = fresh_disk(alloc, 1 << 20)?;
    assert!(rt; filled(alloc, &mut disk)? > 4);

    let far = look_between(alloc, &mut disk, &[(1500, 1503), (10, 12)])?;
    assert!(rt; far.is(&[10, 11, 1500, 1501, 1502], 2));
    let near = look_between(alloc, &mut disk, &[(14, 17), (10, 12), (11, 15)])?;
    assert!(rt; near.is(&[10, 11, 12, 13, 14, 15, 16], 1));
    let empty = look_between(alloc, &mut disk, &[(20, 10)])?;
    assert!(rt; empty.is(&[], 0));
    let none = look_between(alloc, &mut disk, &[])?;
    assert!(rt; none.is(&[], 0));
    Ok(())
}
