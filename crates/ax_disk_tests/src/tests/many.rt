//! Stores of many documents, made as images: an answer of more than 10,000 rows, and more than 131,072 candidates.
use crate::tests::disks::{ROOT, disk_of};
use ax_disk::MemDisk;
use ax_script::Status;
use ax_script_support::output_over;
use std::alloc::Global;
use std::test::Fail;

/// How many rows are shown.
const ROWS: u32 = 10_001;

/// How many candidates a query has, and how many of them stand in the base of a term page, and in each of its two deltas.
const CANDIDATES: u32 = 140_000;

const IN_BASE: usize = 60_000;

const IN_DELTA: usize = 40_000;

/// The kinds of parts.
const META: u8 = 1;

const DOCUMENT: u8 = 3;

const BASE: u8 = 5;

const DELTA: u8 = 6;

/// The front of a base, whose low pair is the first of all: it has one term, 0 at `n`, of so many numbers, from 1 on.
const BASE_FRONT: &[u8] =
    b"\x00\x00\x01\x00\x0F\x02\x03n\x00\x01\x01\x14\x80\x00\x00\x00\x00\x00\x00\x00\xE0\xD4\x03\x01";

/// The fronts of the deltas, which add to that term so many numbers, from 60,001 on and from 100,001 on.
const FIRST_FRONT: &[u8] =
    b"\x01\x00\x0F\x02\x03n\x00\x01\x01\x14\x80\x00\x00\x00\x00\x00\x00\x00\xC0\xB8\x02\xE1\xD4\x03";

const SECOND_FRONT: &[u8] =
    b"\x01\x00\x0F\x02\x03n\x00\x01\x01\x14\x80\x00\x00\x00\x00\x00\x00\x00\xC0\xB8\x02\xA1\x8D\x06";

/// Adds a part.
fn add_part(parts: &mut Vec<u8>, kind: u8, key: u32, payload: &[u8]) -> Result<(), Fail> {
    let length = u32::try_from(payload.len()).unwrap_or(0);
    parts.push(kind)?;
    parts.extend_from_slice(&key.to_le_bytes())?;
    parts.extend_from_slice(&length.to_le_bytes())?;
    Ok(parts.extend_from_slice(payload)?)
}

/// Adds the document of a number, by policy number 0.
fn add_document(alloc: Global, parts: &mut Vec<u8>, number: u32, n: u32) -> Result<(), Fail> {
    let payload = format!(in alloc; "\0{{\"id\":\"d\",\"n\":{n}}}")?;
    add_part(parts, DOCUMENT, number, payload.as_bytes())
}

/// Adds the meta part by which this is the next number, and policy number 0 the policy now.
fn add_meta(parts: &mut Vec<u8>, next: u32) -> Result<(), Fail> {
    let number = next.to_le_bytes();
    let [a, b, c, d] = number;
    add_part(parts, META, 0, &[a, b, c, d, 0, 0, 0, 0])
}

/// The store whose area has these parts in one frame.
fn store_of(alloc: Global, parts: &[u8]) -> Result<MemDisk, Fail> {
    let length = parts.len() as u64;
    let mut area = Vec::new(alloc);
    area.push(1)?;
    area.extend_from_slice(&length.to_le_bytes())?;
    area.extend_from_slice(parts)?;
    area.push(0)?;
    disk_of(alloc, ROOT, area.as_slice())
}

/// The store of so many documents, each with its number at `n`, and without an index.
fn store_of_numbers(alloc: Global) -> Result<MemDisk, Fail> {
    let mut parts = Vec::new(alloc);
    for number in 1..=ROWS {
        add_document(alloc, &mut parts, number, number)?;
    }
    add_meta(&mut parts, ROWS + 1)?;
    store_of(alloc, parts.as_slice())
}

/// The reply with a row for each of them.
fn rows_of_numbers(alloc: Global) -> Result<Vec<u8>, Fail> {
    let mut reply = Vec::new(alloc);
    for number in 1..=ROWS {
        let row = format!(in alloc; "row {{\"n\":{number}}}\n")?;
        reply.extend_from_slice(row.as_bytes())?;
    }
    reply.extend_from_slice(b"end 10001\n")?;
    Ok(reply)
}

// The rows are no stored texts, so all of them are kept as values until the last is there.
#[test]
fn ten_thousand_rows_are_shown(rt: HostRuntime) -> Result<(), Fail> {
    let alloc = rt.alloc();
    let mut disk = store_of_numbers(alloc)?;
    let query = b"QUERY {\"query\":\"SELECT c.n FROM c\"}";
    let (status, output) = output_over(alloc, &mut disk, query)?;
    let expected = rows_of_numbers(alloc)?;
    assert_eq!(rt; status, Status::Done);
    assert!(rt; output.as_slice() == expected.as_slice());
    Ok(())
}

/// Adds a part whose payload has this front, then so many zeros, each of which is a number next to the one before, and
/// then this end.
fn add_page_part(
    alloc: Global,
    parts: &mut Vec<u8>,
    kind: u8,
    front: &[u8],
    zeros: usize,
    end: &[u8],
) -> Result<(), Fail> {
    let mut payload = Vec::from_slice(alloc, front)?;
    let gaps = vec![in alloc; 0; zeros]?;
    payload.extend_from_slice(gaps.as_slice())?;
    payload.extend_from_slice(end)?;
    add_part(parts, kind, 0, payload.as_slice())
}

/// The store of so many documents, each with 0 at `n`, which the index has of all but the last. It has no other term.
fn store_of_candidates(alloc: Global) -> Result<MemDisk, Fail> {
    let mut parts = Vec::new(alloc);
    for number in 1..=CANDIDATES + 1 {
        add_document(alloc, &mut parts, number, 0)?;
    }
    add_page_part(alloc, &mut parts, BASE, BASE_FRONT, IN_BASE - 1, b"")?;
    add_page_part(alloc, &mut parts, DELTA, FIRST_FRONT, IN_DELTA - 1, b"\0")?;
    add_page_part(alloc, &mut parts, DELTA, SECOND_FRONT, IN_DELTA - 1, b"\0")?;
    add_meta(&mut parts, CANDIDATES + 2)?;
    store_of(alloc, parts.as_slice())
}

// The index is asked: of the documents that pass the last one is none of its.
#[test]
fn a_hundred_and_forty_thousand_candidates_are_looked_at(rt: HostRuntime) -> Result<(), Fail> {
    const TABLE: [(&str, &str); 4] = [
        ("COUNT(1) FROM c WHERE c.n = 0", "row 140000\nend 1\n"),
        (
            "COUNT(1) FROM c WHERE c.n = 0 AND IS_DEFINED(c.n)",
            "row 140000\nend 1\n",
        ),
        ("COUNT(1) FROM c WHERE c.n + 0 = 0", "row 140001\nend 1\n"),
        (
            "c.n FROM c WHERE c.n = 0 OFFSET 139999 LIMIT 2",
            "row 0\nend 1\n",
        ),
    ];
    let alloc = rt.alloc();
    let mut disk = store_of_candidates(alloc)?;
    for (text, expected) in TABLE {
        let line = format!(in alloc; "QUERY {{\"query\":\"SELECT VALUE {text}\"}}")?;
        let (status, output) = output_over(alloc, &mut disk, line.as_bytes())?;
        assert_eq!(rt; status, Status::Done, "{text}");
        assert_eq!(rt; output.as_slice(), expected.as_bytes(), "{text}");
    }
    Ok(())
}
