//! What a query reads, as damage shows it: of the documents only those that the index does not rule out,
//! and the index only where it answers a condition.
use crate::tests::disks::{spoiled_at, turned};
use ax_disk::{Extent, MemDisk};
use ax_script::Status;
use ax_script_support::{fresh_disk, output_over};
use std::alloc::Global;
use std::test::Fail;

/// How many bytes of a document's part stand in front of its text.
const HEAD: usize = 10;

/// How many bytes of its text stand in front of its id.
const BEFORE_ID: usize = 7;

/// Where a text stands in an area; its end where it stands nowhere.
fn place_in(area: &[u8], text: &[u8]) -> usize {
    for at in 0..area.len() {
        if area[at..].starts_with(text) {
            return at;
        }
    }
    area.len()
}

/// The store of two documents.
fn store_of_two(alloc: Global) -> Result<MemDisk, Fail> {
    let script = b"CREATE {\"id\":\"a\",\"k\":1}\nCREATE {\"id\":\"b\",\"k\":2}\n";
    let mut disk = fresh_disk(alloc)?;
    let _written = output_over(alloc, &mut disk, script)?;
    Ok(disk)
}

/// That store with a byte that is in no text as the id of the second document, and where the part of that document begins.
/// The rest of its text stays, so that a condition on `k` alone does not pass it over.
fn with_bad_second(alloc: Global) -> Result<(MemDisk, u64), Fail> {
    let disk = store_of_two(alloc)?;
    let place = place_in(disk.bytes(Extent::A), b"{\"id\":\"b\"");
    let bad = turned(alloc, &disk, place.saturating_add(BEFORE_ID), 0xFF)?;
    Ok((bad, place.saturating_sub(HEAD) as u64))
}

// A text that is none is not read by a query whose condition the index answers with another document.
#[test]
fn a_document_that_the_index_rules_out_is_not_read(rt: HostRuntime) -> Result<(), Fail> {
    let alloc = rt.alloc();
    let (mut disk, at) = with_bad_second(alloc)?;
    let first = b"QUERY {\"query\":\"SELECT VALUE {\\\"d\\\":c} FROM c WHERE c.k = 1\"}";
    let (status, output) = output_over(alloc, &mut disk, first)?;
    assert_eq!(rt; status, Status::Done);
    assert_eq!(rt;
        output.as_slice(),
        b"row {\"d\":{\"id\":\"a\",\"k\":1}}\nend 1\n".as_slice()
    );
    drop(output);
    let damaged = Status::Damaged { extent: 1, at };
    for line in [
        b"QUERY {\"query\":\"SELECT VALUE {\\\"d\\\":c} FROM c WHERE c.k = 2\"}".as_slice(),
        b"QUERY {\"query\":\"SELECT VALUE {\\\"d\\\":c} FROM c WHERE c.k >= 1\"}",
        b"QUERY {\"query\":\"SELECT VALUE {\\\"d\\\":c} FROM c\"}",
    ] {
        let (status, output) = output_over(alloc, &mut disk, line)?;
        assert_eq!(rt; status, damaged);
        assert!(rt; output.is_empty());
    }
    Ok(())
}

/// Queries that have their rows before the second document, how often each reads the disk, and its answer. With a condition
/// that the index answers its two parts are read, too, one for each document.
const STOPPED: [(&str, u64, &str); 7] = [
    ("TOP 1 VALUE {'d':c} FROM c", 1, FIRST),
    ("VALUE {'d':c} FROM c OFFSET 0 LIMIT 1", 1, FIRST),
    ("DISTINCT TOP 1 VALUE {'d':c} FROM c", 1, FIRST),
    ("TOP 1 VALUE {'d':c} FROM c WHERE c.k >= 1", 3, FIRST),
    ("TOP 0 VALUE {'d':c} FROM c", 0, "end 0\n"),
    ("VALUE {'d':c} FROM c OFFSET 0 LIMIT 0", 0, "end 0\n"),
    ("VALUE {'d':c} FROM c OFFSET 1 LIMIT 0", 0, "end 0\n"),
];

/// Queries that go on to it.
const NOT_STOPPED: [&str; 5] = [
    "VALUE {'d':c} FROM c",
    "TOP 2 VALUE {'d':c} FROM c",
    "VALUE {'d':c} FROM c OFFSET 1 LIMIT 1",
    "TOP 1 VALUE {'d':c} FROM c ORDER BY c.k",
    "VALUE {'d':c} FROM c WHERE c.k >= 1 OFFSET 0 LIMIT 2",
];

/// The answer with the first document alone.
const FIRST: &str = "row {\"d\":{\"id\":\"a\",\"k\":1}}\nend 1\n";

/// What the query of a text, which goes on behind SELECT, is answered over a store, and how often the disk is read for it
/// and by opening.
fn selected(alloc: Global, disk: &mut MemDisk, text: &str) -> Result<(Status, Vec<u8>, u64), Fail> {
    let line = format!(in alloc; "QUERY {{\"query\":\"SELECT {text}\"}}")?;
    let before = disk.reads();
    let (status, output) = output_over(alloc, disk, line.as_bytes())?;
    Ok((status, output, disk.reads().abs_diff(before)))
}

/// How often the disk is read while a store is opened.
fn reads_of_opening(alloc: Global, disk: &mut MemDisk) -> Result<u64, Fail> {
    let before = disk.reads();
    let _written = output_over(alloc, disk, b"")?;
    Ok(disk.reads().abs_diff(before))
}

// A walk ends with the last row that is asked for: the first text is read alone, and one that is none behind it is not
// met. With no row to give nothing is read.
#[test]
fn a_limit_stops_before_a_text_that_is_none(rt: HostRuntime) -> Result<(), Fail> {
    let alloc = rt.alloc();
    let (mut disk, _) = with_bad_second(alloc)?;
    let opening = reads_of_opening(alloc, &mut disk)?;
    for (text, reads, answer) in STOPPED {
        let (status, output, made) = selected(alloc, &mut disk, text)?;
        assert_eq!(rt; status, Status::Done, "{text}");
        assert_eq!(rt; output.as_slice(), answer.as_bytes(), "{text}");
        assert_eq!(rt; made.abs_diff(opening), reads, "{text}");
    }
    Ok(())
}

// A query that needs the second document ends the run, with the place of its part.
#[test]
fn without_a_limit_a_text_that_is_none_is_met(rt: HostRuntime) -> Result<(), Fail> {
    let alloc = rt.alloc();
    let (mut disk, at) = with_bad_second(alloc)?;
    for text in NOT_STOPPED {
        let (status, output, _) = selected(alloc, &mut disk, text)?;
        assert_eq!(rt; status, Status::Damaged { extent: 1, at }, "{text}");
        assert!(rt; output.is_empty(), "{text}");
    }
    Ok(())
}

// A query reads the index where that answers a condition, and is told its damage; one without such a
// condition is served.
#[test]
fn damage_of_the_index_is_told_by_queries(rt: HostRuntime) -> Result<(), Fail> {
    let alloc = rt.alloc();
    let mut disk = spoiled_at(alloc, 55)?;
    for (line, expected, answer) in [
        (
            b"QUERY {\"query\":\"SELECT VALUE c.id FROM c WHERE c.id = 'a'\"}".as_slice(),
            Status::Damaged { extent: 1, at: 46 },
            b"".as_slice(),
        ),
        (
            b"QUERY {\"query\":\"SELECT VALUE c.id FROM c\"}",
            Status::Done,
            b"row \"a\"\nend 1\n",
        ),
        (
            b"QUERY {\"query\":\"SELECT VALUE c.id FROM c WHERE c.id != 'b'\"}",
            Status::Done,
            b"row \"a\"\nend 1\n",
        ),
    ] {
        let (status, output) = output_over(alloc, &mut disk, line)?;
        assert_eq!(rt; status, expected);
        assert_eq!(rt; output.as_slice(), answer);
    }
    Ok(())
}
