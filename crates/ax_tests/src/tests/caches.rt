//! Whatever cache an engine has, lines are answered alike.
ghost use Rattle.std.specs.Prelude.{◌≡◌, ◌<◌, true, IfOk};
ghost use Rattle.std.specs.FinMap as map;
ghost use Rattle.ax_disk.specs.mem_disk.MemDisk.{disk_history};
ghost use Rattle.ax_engine.specs.Engine.{Works};

use ax_base::{MemSink, Steps};
use ax_cache::{LruPages, NoPages, PageCache};
use ax_disk::MemDisk;
use ax_engine::{Engine, Fault};
use ax_script::{Status, serve_line};
use ax_script_support::{ROOM, fresh_disk};
use ax_tree::Text;
use std::alloc::Global;
use std::marker::Brand;
use std::sync::ledger::{Blank, Ledger};
use std::test::Fail;

/// Lines, and their replies by hand, from the meaning of each.
const SCRIPT: [(&str, &str); 40] = [
    ("CREATE {\"id\":\"a\",\"n\":1}", "ok\n"),
    ("CREATE {\"id\":\"b\",\"n\":2}", "ok\n"),
    ("UPSERT {\"id\":\"c\",\"n\":3}", "ok\n"),
    ("READ a", "doc {\"id\":\"a\",\"n\":1}\n"),
    ("READ b", "doc {\"id\":\"b\",\"n\":2}\n"),
    ("READ a", "doc {\"id\":\"a\",\"n\":1}\n"),
    ("UPSERT {\"id\":\"a\",\"n\":4}", "ok\n"),
    ("READ a", "doc {\"id\":\"a\",\"n\":4}\n"),
    ("REPLACE {\"id\":\"b\",\"n\":5}", "ok\n"),
    ("READ b", "doc {\"id\":\"b\",\"n\":5}\n"),
    ("READ c", "doc {\"id\":\"c\",\"n\":3}\n"),
    ("DELETE c", "ok\n"),
    ("READ c", "err 8 absent\n"),
    ("CREATE {\"id\":\"c\",\"n\":6}", "ok\n"),
    ("READ c", "doc {\"id\":\"c\",\"n\":6}\n"),
    (
        "QUERY {\"query\":\"SELECT VALUE c.n FROM c\"}",
        "row 4\nrow 5\nrow 6\nend 3\n",
    ),
    ("READ b", "doc {\"id\":\"b\",\"n\":5}\n"),
    (
        "QUERY {\"query\":\"SELECT * FROM c WHERE c.n > 4\"}",
        "row {\"id\":\"b\",\"n\":5}\nrow {\"id\":\"c\",\"n\":6}\nend 2\n",
    ),
    ("CREATE {\"id\":\"a\"}", "err 7 conflict\n"),
    ("REPLACE {\"id\":\"z\"}", "err 8 absent\n"),
    ("DELETE z", "err 8 absent\n"),
    ("READ ", "err 5 id\n"),
    ("UPSERT {\"id\":\"d\",\"n\":1.5}", "err 4 number\n"),
    ("UPSERT {", "err 3 json\n"),
    ("FOO", "err 2 command\n"),
    ("QUERY {\"query\":\"SELECT\"}", "err 10 query\n"),
    (
        "QUERY {\"query\":\"SELECT VALUE c.id FROM c ORDER BY c.n DESC\"}",
        "row \"c\"\nrow \"b\"\nrow \"a\"\nend 3\n",
    ),
    (
        "QUERY {\"query\":\"SELECT * FROM c ORDER BY c._etag\"}",
        "err 11 order\n",
    ),
    (
        "QUERY {\"query\":\"SELECT * FROM c ORDER BY c.n, c.id\"}",
        "err 11 order\n",
    ),
    (
        "UPSERT {\"id\":\"d\",\"tags\":[\"x\",\"y\"],\"m\":{\"k\":null}}",
        "ok\n",
    ),
    (
        "QUERY {\"query\":\"SELECT VALUE t FROM c JOIN t IN c.tags\"}",
        "row \"x\"\nrow \"y\"\nend 2\n",
    ),
    (
        "QUERY {\"query\":\"SELECT VALUE COUNT(1) FROM c\"}",
        "row 4\nend 1\n",
    ),
    (
        "QUERY {\"query\":\"SELECT VALUE c.id FROM c WHERE c.n = @n\",\"parameters\":[{\"name\":\"@n\",\"value\":5}]}",
        "row \"b\"\nend 1\n",
    ),
    (
        "QUERY {\"query\":\"SELECT TOP 1 c.n FROM c\"}",
        "row {\"n\":4}\nend 1\n",
    ),
    (
        "QUERY {\"query\":\"SELECT VALUE c.id FROM c OFFSET 1 LIMIT 2\"}",
        "row \"b\"\nrow \"c\"\nend 2\n",
    ),
    ("REPLACE {\"id\":\"d\",\"tags\":[\"y\"]}", "ok\n"),
    ("READ d", "doc {\"id\":\"d\",\"tags\":[\"y\"]}\n"),
    ("DELETE a", "ok\n"),
    ("UPSERT {\"id\":\"a\"}", "ok\n"),
    (
        "QUERY {\"query\":\"SELECT VALUE c.id FROM c\"}",
        "row \"b\"\nrow \"c\"\nrow \"d\"\nrow \"a\"\nend 4\n",
    ),
];

fn replies(alloc: Global) -> Result<Vec<u8>, Fail> {
    let mut text = Vec::new(alloc);
    for (_, reply) in SCRIPT {
        text.extend_from_slice(reply.as_bytes())?;
    }
    Ok(text)
}

/// The engine with this cache over the store of a disk.
pub fn engine_over<C: PageCache + Drop, L: Ledger>(
    alloc: Global,
    disk: &mut MemDisk,
    cache: C,
    steps: &mut Steps<L>,
) -> Result<Engine<C>, Fail>
    requires { C.pages cache ≡ map.empty }
    ensures { IfOk result (λ engine. Works C.pages true engine (disk_history disk.new)) }
{
    let opened = Engine::open_engine(alloc, disk, steps)?;
    Ok(opened.with_cache(cache))
}

/// Serves the lines, one after another.
fn serve_lines<C: PageCache, L: Ledger>(
    alloc: Global,
    engine: &mut Engine<C>,
    disk: &mut MemDisk,
    sink: &mut MemSink,
    steps: &mut Steps<L>,
) -> Result<(), Status>
    requires { Works C.pages true engine.old (disk_history disk.old) }
{
    'lines: for (line, _) in SCRIPT {
        serve_line(alloc, engine, disk, line.as_bytes(), sink, steps)?;
    }
    Ok(())
}

/// What the lines are answered by an engine with this cache over a fresh store.
fn answers_by<C: PageCache + Drop, L: Ledger>(
    alloc: Global,
    cache: C,
    blank: Blank,
) -> Result<Vec<u8>, Fail>
    requires empty { C.pages cache ≡ map.empty }
    requires name { blank.name ≡ L.name }
    requires parts { blank.parts ≡ L.parts }
    requires some { 0 < blank.parts }
{
    let mut disk = fresh_disk(alloc)?;
    let mut sink = MemSink::make(alloc, ROOM, Vec::new(alloc))?;
    let mut steps = Steps::<L>::begin(blank);
    let mut engine = engine_over(alloc, &mut disk, cache, &mut steps)?;
    serve_lines(alloc, &mut engine, &mut disk, &mut sink, &mut steps)?;
    Ok(Vec::from_slice(alloc, sink.bytes())?)
}

fn answers<C: PageCache + Drop>(alloc: Global, cache: C) -> Result<Vec<u8>, Fail>
    requires { C.pages cache ≡ map.empty }
{
    answers_by::<C, Brand>(alloc, cache, Blank::new(1))
}

#[test]
fn each_cache_answers_alike(rt: HostRuntime) -> Result<(), Fail> {
    let alloc = rt.alloc();
    let expected = replies(alloc)?;
    let uncached = answers(alloc, NoPages)?;
    assert_eq!(rt; uncached.as_slice(), expected.as_slice());
    let small = answers(alloc, LruPages::make(alloc, 1)?)?;
    assert_eq!(rt; small.as_slice(), expected.as_slice());
    let large = answers(alloc, LruPages::make(alloc, 256)?)?;
    assert_eq!(rt; large.as_slice(), expected.as_slice());
    Ok(())
}

/// The line by which a document is made whose id is kept among those lately found.
const MADE: &str = "CREATE {\"id\":\"a\",\"n\":1}";

/// The same of an id that is too long to be kept there, so that it is found by the index each time.
const MADE_LONG: &str = "CREATE {\"id\":\"customer-0000000000000000000000000000001\",\"n\":1}";

/// A line of which the reads are counted.
#[derive(Clone, Copy)]
enum Asked {
    Document,
    Condition,
    Whole,
}

fn line_of(asked: Asked) -> &'static str {
    match asked {
        Asked::Document => "READ customer-0000000000000000000000000000001",
        Asked::Condition => "QUERY {\"query\":\"SELECT VALUE c.id FROM c WHERE c.n = 1\"}",
        Asked::Whole => "QUERY {\"query\":\"SELECT * FROM c\"}",
    }
}

/// How often the disk is read for a line by an engine with this cache, which is opened over a store that has a document:
/// when the line comes first, and when it comes again.
fn reads_by<C: PageCache + Drop, L: Ledger>(
    alloc: Global,
    cache: C,
    asked: Asked,
    blank: Blank,
) -> Result<(u64, u64), Fail>
    requires empty { C.pages cache ≡ map.empty }
    requires name { blank.name ≡ L.name }
    requires parts { blank.parts ≡ L.parts }
    requires some { 0 < blank.parts }
{
    let line = line_of(asked).as_bytes();
    let mut disk = fresh_disk(alloc)?;
    let mut sink = MemSink::make(alloc, ROOM, Vec::new(alloc))?;
    let mut steps = Steps::<L>::begin(blank);
    make_document(alloc, &mut disk, &mut sink, &mut steps)?;
    let mut engine = engine_over(alloc, &mut disk, cache, &mut steps)?;
    let opened = disk.reads();
    serve_line(alloc, &mut engine, &mut disk, line, &mut sink, &mut steps)?;
    let once = disk.reads();
    serve_line(alloc, &mut engine, &mut disk, line, &mut sink, &mut steps)?;
    Ok((once.abs_diff(opened), disk.reads().abs_diff(once)))
}

/// Makes the document of which reads are counted, by an engine of its own.
fn make_document<L: Ledger>(
    alloc: Global,
    disk: &mut MemDisk,
    sink: &mut MemSink,
    steps: &mut Steps<L>,
) -> Result<(), Fail> {
    let made = MADE_LONG.as_bytes();
    let mut engine = engine_over(alloc, disk, NoPages, steps)?;
    serve_line(alloc, &mut engine, disk, made, sink, steps)?;
    Ok(())
}

/// How often the disk is read where a document is to be made whose id the engine has lately made.
fn reads_of_a_known_id<L: Ledger>(alloc: Global, blank: Blank) -> Result<u64, Fail>
    requires name { blank.name ≡ L.name }
    requires parts { blank.parts ≡ L.parts }
    requires some { 0 < blank.parts }
{
    let made = MADE.as_bytes();
    let mut disk = fresh_disk(alloc)?;
    let mut sink = MemSink::make(alloc, ROOM, Vec::new(alloc))?;
    let mut steps = Steps::<L>::begin(blank);
    let mut engine = engine_over(alloc, &mut disk, NoPages, &mut steps)?;
    serve_line(alloc, &mut engine, &mut disk, made, &mut sink, &mut steps)?;
    let before = disk.reads();
    serve_line(alloc, &mut engine, &mut disk, made, &mut sink, &mut steps)?;
    Ok(disk.reads().abs_diff(before))
}

fn known_reads(alloc: Global) -> Result<u64, Fail> {
    reads_of_a_known_id::<Brand>(alloc, Blank::new(1))
}

fn reads<C: PageCache + Drop>(alloc: Global, cache: C, asked: Asked) -> Result<(u64, u64), Fail>
    requires { C.pages cache ≡ map.empty }
{
    reads_by::<C, Brand>(alloc, cache, asked, Blank::new(1))
}

/// Without a cache a line that comes again reads the disk as often as before, at least once; with one that has room, not
/// at all for a document that was read.
#[test]
fn a_cache_spares_reads(rt: HostRuntime) -> Result<(), Fail> {
    let alloc = rt.alloc();
    for asked in [Asked::Document, Asked::Condition, Asked::Whole] {
        let (first, again) = reads(alloc, NoPages, asked)?;
        assert!(rt; first > 0);
        assert_eq!(rt; first, again);
    }
    let (first, again) = reads(alloc, LruPages::make(alloc, 4)?, Asked::Document)?;
    assert!(rt; first > 0);
    assert_eq!(rt; again, 0);
    // An id that was lately written is found without the disk.
    assert_eq!(rt; known_reads(alloc)?, 0);
    Ok(())
}

/// Reads the document twice to a sink whose second call fails: whether the first read is told that, and what the sink has.
fn read_past_a_fault<L: Ledger>(alloc: Global, blank: Blank) -> Result<(bool, Vec<u8>), Fail>
    requires name { blank.name ≡ L.name }
    requires parts { blank.parts ≡ L.parts }
    requires some { 0 < blank.parts }
{
    let id = Text::from_string(String::from_str(alloc, "a")?);
    let mut failing = Vec::new(alloc);
    failing.push(2)?;
    let mut disk = fresh_disk(alloc)?;
    let mut made = MemSink::make(alloc, ROOM, Vec::new(alloc))?;
    let mut sink = MemSink::make(alloc, ROOM, failing)?;
    let mut steps = Steps::<L>::begin(blank);
    let mut engine = engine_over(alloc, &mut disk, NoPages, &mut steps)?;
    serve_line(
        alloc,
        &mut engine,
        &mut disk,
        MADE.as_bytes(),
        &mut made,
        &mut steps,
    )?;
    let broken = engine.read_into(&mut disk, &id, &mut sink, &mut steps);
    engine.read_into(&mut disk, &id, &mut sink, &mut steps)?;
    let told = matches!(broken, Err(Fault::Sink));
    Ok((told, Vec::from_slice(alloc, sink.bytes())?))
}

fn past_a_fault(alloc: Global) -> Result<(bool, Vec<u8>), Fail> {
    read_past_a_fault::<Brand>(alloc, Blank::new(1))
}

/// An engine whose sink has failed keeps its documents, and serves on.
#[test]
fn an_engine_serves_on_behind_a_fault_of_its_sink(rt: HostRuntime) -> Result<(), Fail> {
    let (told, written) = past_a_fault(rt.alloc())?;
    assert!(rt; told);
    assert_eq!(rt;
        written.as_slice(),
        b"doc doc {\"id\":\"a\",\"n\":1}\n".as_slice()
    );
    Ok(())
}
