//! Disks for the tests, and what they ask and change, in the words of a test.

ghost use Rattle.ax_index_support.specs.Ready.{IsReady};

use ax_cache::PageCache;
use ax_disk::{Disk, MemDisk};
use ax_index::{Change, TermRange};
use ax_index_support as support;
use ax_pair::Bytes;
use ax_store::Store;
use std::alloc::Global;
use std::test::Fail;

/// How many calls a disk has for every test here.
const CALLS: usize = 8192;

/// A fresh disk in memory, with room for so many bytes.
pub fn fresh_disk(alloc: Global, room: usize) -> Result<MemDisk, Fail> {
    let (root, a, b) = (Vec::new(alloc), Vec::new(alloc), Vec::new(alloc));
    Ok(MemDisk::make(alloc, root, a, b, room, CALLS, Vec::new(alloc))?)
}

/// The open root slot of version 1, area 1 and generation 1, a closed one, and the last byte.
const ROOT: &[u8] =
    b"\x01\x01\x00\x01\x01\x00\x00\x00\x00\x00\x00\x00AXDB\x00\x00\x00\x00\x00\x00\x00\x00\x00\x00\x00\x00\x00\x00\x00\x00E";

/// A disk in memory whose first area has these bytes.
pub fn disk_of(alloc: Global, area: &[u8]) -> Result<MemDisk, Fail> {
    let root = Vec::from_slice(alloc, ROOT)?;
    let a = Vec::from_slice(alloc, area)?;
    Ok(MemDisk::make(
        alloc,
        root,
        a,
        Vec::new(alloc),
        1 << 14,
        CALLS,
        Vec::new(alloc),
    )?)
}

/// Whether the pair of a term and a number is in the index.
pub fn has_pair<D: Disk, C: PageCache>(
    alloc: Global,
    disk: &mut D,
    store: &mut Store<C>,
    term: &[u8],
    number: u32,
) -> Result<bool, Fail>
    requires { IsReady C.pages store.old (D.is_honest disk.old) (D.history disk.old (D.attached disk.old)) }
    ensures { IsReady C.pages store.new (D.is_honest disk.new) (D.history disk.new (D.attached disk.new)) }
{
    let pair = support::pair_of(alloc, term, number)?;
    Ok(support::ask(disk, store, &pair)?)
}

/// The numbers with a term from one on and before another.
pub fn numbers<D: Disk, C: PageCache>(
    alloc: Global,
    disk: &mut D,
    store: &mut Store<C>,
    from: &[u8],
    below: &[u8],
) -> Result<Vec<u32>, Fail>
    requires { IsReady C.pages store.old (D.is_honest disk.old) (D.history disk.old (D.attached disk.old)) }
    ensures { IsReady C.pages store.new (D.is_honest disk.new) (D.history disk.new (D.attached disk.new)) }
{
    let range = range_of(alloc, from, below)?;
    Ok(support::look(alloc, disk, store, &range)?)
}

/// Changes of so many rows.
pub fn changes_of_rows(alloc: Global, rows: &[(bool, &[u8], u32)]) -> Result<Vec<Change>, Fail> {
    let mut changes = Vec::new(alloc);
    for (add, term, number) in rows {
        support::put(alloc, &mut changes, *add, term, *number)?;
    }
    Ok(changes)
}

/// The range from one term on and before another.
pub fn range_of(alloc: Global, from: &[u8], below: &[u8]) -> Result<TermRange, Fail> {
    let from = Bytes::from_vec(Vec::from_slice(alloc, from)?);
    let below = Bytes::from_vec(Vec::from_slice(alloc, below)?);
    Ok(TermRange { from, below })
}
