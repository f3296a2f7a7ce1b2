//! How often the disk is read for a line that comes twice, by the engine that has made the documents.
ghost use Rattle.std.specs.Prelude.{◌≡◌, ◌<◌};
ghost use Rattle.std.specs.FinMap as map;

use crate::tests::answering::{check, engine_over, serve_lines};
use ax_base::{MemSink, Steps};
use ax_cache::{LruPages, NoPages, PageCache};
use ax_script_support::{ROOM, fresh_disk};
use std::alloc::Global;
use std::marker::Brand;
use std::sync::ledger::{Blank, Ledger};
use std::test::Fail;

/// The lines that make the documents, and their replies.
const MADE: [(&str, &str); 2] = [
    (r#"CREATE {"id":"a","n":1}"#, "ok\n"),
    (r#"CREATE {"id":"b","n":2}"#, "ok\n"),
];

/// The line that reads a document, and its reply.
const READ: (&str, &str) = ("READ a", "doc {\"id\":\"a\",\"n\":1}\n");

/// Lines that are asked, and their replies: a document, two conditions that the index answers, one that it does not, and none.
const ASKED: [(&str, &str); 5] = [
    READ,
    (
        r#"QUERY {"query":"SELECT VALUE c.id FROM c WHERE c.n = 1"}"#,
        "row \"a\"\nend 1\n",
    ),
    (
        r#"QUERY {"query":"SELECT VALUE c.id FROM c WHERE c.n > 1"}"#,
        "row \"b\"\nend 1\n",
    ),
    (
        r#"QUERY {"query":"SELECT VALUE c.id FROM c WHERE c.n != 1"}"#,
        "row \"b\"\nend 1\n",
    ),
    (
        r#"QUERY {"query":"SELECT * FROM c"}"#,
        "row {\"id\":\"a\",\"n\":1}\nrow {\"id\":\"b\",\"n\":2}\nend 2\n",
    ),
];

/// How often the disk is read for the lines of a table by an engine with this cache: when they come first, and when they
/// come again.
fn reads_by<C: PageCache + Drop, L: Ledger>(
    alloc: Global,
    cache: C,
    table: &[(&str, &str)],
    blank: Blank,
) -> Result<(u64, u64), Fail>
    requires empty { C.pages cache ≡ map.empty }
    requires name { blank.name ≡ L.name }
    requires parts { blank.parts ≡ L.parts }
    requires some { 0 < blank.parts }
{
    let mut disk = fresh_disk(alloc)?;
    let mut sink = MemSink::make(alloc, ROOM, Vec::new(alloc))?;
    let mut steps = Steps::<L>::begin(blank);
    let mut engine = engine_over(alloc, &mut disk, cache, &mut steps)?;
    serve_lines(alloc, &mut engine, &mut disk, &MADE, &mut sink, &mut steps)?;
    let made = disk.reads();
    serve_lines(alloc, &mut engine, &mut disk, table, &mut sink, &mut steps)?;
    let once = disk.reads();
    serve_lines(alloc, &mut engine, &mut disk, table, &mut sink, &mut steps)?;
    Ok((once.abs_diff(made), disk.reads().abs_diff(once)))
}

fn reads<C: PageCache + Drop>(
    alloc: Global,
    cache: C,
    table: &[(&str, &str)],
) -> Result<(u64, u64), Fail>
    requires { C.pages cache ≡ map.empty }
{
    reads_by::<C, Brand>(alloc, cache, table, Blank::new(1))
}

// Each line is answered alike by all caches. Without one a line that comes twice reads the disk twice as often as one that comes
// once, at least once each time; with one that has room a document that was read is there the second time.
#[test]
fn a_line_that_comes_again_reads_as_often(rt: HostRuntime) -> Result<(), Fail> {
    let alloc = rt.alloc();
    let [a, b] = MADE;
    for row in ASKED {
        check(&rt, alloc, "asked", &[a, b, row])?;
        let (first, again) = reads(alloc, NoPages, &[row])?;
        assert!(rt; first > 0, "{row:?}");
        assert_eq!(rt; first, again, "{row:?}");
    }
    let (_, again) = reads(alloc, LruPages::make(alloc, 4)?, &[READ])?;
    assert_eq!(rt; again, 0);
    Ok(())
}
