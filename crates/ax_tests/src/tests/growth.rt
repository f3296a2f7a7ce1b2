//! What a query reads from the disk where the index answers its condition: this does not grow with the store.
ghost use Rattle.std.specs.Prelude.{◌≡◌, ◌<◌, true};
ghost use Rattle.ax_disk.specs.mem_disk.MemDisk.{disk_history};
ghost use Rattle.ax_engine.specs.Engine.{Works};

use crate::tests::caches::engine_over;
use ax_base::{MemSink, Steps};
use ax_cache::{NoPages, PageCache};
use ax_disk::MemDisk;
use ax_engine::Engine;
use ax_script::serve_line;
use ax_script_support::ROOM;
use std::alloc::Global;
use std::marker::Brand;
use std::sync::ledger::{Blank, Ledger};
use std::test::Fail;

/// How many calls the disk has: a creation makes five, and one that merges a page reads its parts besides.
const CALLS: usize = 1 << 14;

/// The most parts that a page of the index has.
const MOST_PARTS: u64 = 17;

/// A query for the one document that has this number.
const QUERY: &[u8] = b"QUERY {\"query\":\"SELECT VALUE c.id FROM c WHERE c.k = 7\"}";

/// Serves the creation of the document of a number.
fn create<C: PageCache, L: Ledger>(
    alloc: Global,
    engine: &mut Engine<C>,
    disk: &mut MemDisk,
    sink: &mut MemSink,
    steps: &mut Steps<L>,
    number: usize,
) -> Result<(), Fail>
    requires { Works C.pages true engine.old (disk_history disk.old) }
    ensures { Works C.pages true engine.new (disk_history disk.new) }
{
    let line = format!(in alloc; "CREATE {{\"id\":\"{number}\",\"k\":{number}}}")?;
    serve_line(alloc, engine, disk, line.as_bytes(), sink, steps)?;
    Ok(())
}

/// Serves the creations of so many documents, from 1 on.
fn create_all<C: PageCache, L: Ledger>(
    alloc: Global,
    engine: &mut Engine<C>,
    disk: &mut MemDisk,
    sink: &mut MemSink,
    steps: &mut Steps<L>,
    count: usize,
) -> Result<(), Fail>
    requires { Works C.pages true engine.old (disk_history disk.old) }
    ensures { Works C.pages true engine.new (disk_history disk.new) }
{
    'numbers: for number in 1..=count {
        create(alloc, engine, disk, sink, steps, number)?;
    }
    Ok(())
}

/// How often the disk is read for the query, by an engine without a cache that has created so many documents: when it
/// comes first, and when it comes again.
fn reads_after<L: Ledger>(alloc: Global, count: usize, blank: Blank) -> Result<(u64, u64), Fail>
    requires name { blank.name ≡ L.name }
    requires parts { blank.parts ≡ L.parts }
    requires some { 0 < blank.parts }
{
    let (root, a, b) = (Vec::new(alloc), Vec::new(alloc), Vec::new(alloc));
    let mut disk = MemDisk::make(alloc, root, a, b, ROOM, CALLS, Vec::new(alloc))?;
    let mut sink = MemSink::make(alloc, ROOM, Vec::new(alloc))?;
    let mut steps = Steps::<L>::begin(blank);
    let mut engine = engine_over(alloc, &mut disk, NoPages, &mut steps)?;
    create_all(alloc, &mut engine, &mut disk, &mut sink, &mut steps, count)?;
    let made = disk.reads();
    serve_line(alloc, &mut engine, &mut disk, QUERY, &mut sink, &mut steps)?;
    let once = disk.reads();
    serve_line(alloc, &mut engine, &mut disk, QUERY, &mut sink, &mut steps)?;
    Ok((once.abs_diff(made), disk.reads().abs_diff(once)))
}

fn reads_of(alloc: Global, count: usize) -> Result<(u64, u64), Fail> {
    reads_after::<Brand>(alloc, count, Blank::new(1))
}

// The query looks one term up, which stands on one page, of at most so many parts, and reads one document, by one call
// each. In a larger store that page may have other parts, and no more than these. The same query reads as often again.
#[test]
fn what_a_filter_reads_does_not_grow_with_the_store(rt: HostRuntime) -> Result<(), Fail> {
    let alloc = rt.alloc();
    let (few, few_again) = reads_of(alloc, 40)?;
    let (many, many_again) = reads_of(alloc, 400)?;
    assert_eq!(rt; few, few_again);
    assert_eq!(rt; many, many_again);
    // A part and the document, at least.
    assert!(rt; few >= 2 && few <= MOST_PARTS + 1, "{few}");
    assert!(rt; many >= 2 && many <= MOST_PARTS + 1, "{many}");
    assert!(rt; many.saturating_sub(few) < MOST_PARTS, "{few} {many}");
    Ok(())
}
