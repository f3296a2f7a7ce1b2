//! What a query reads from the disk where an index answers its conditions: what all of them ask for, and no more.
use crate::tests::asking::{
    lengthened, line_of, query_between, query_joined, query_of, reads_for_line, store_after,
};
use crate::tests::filters::{COUNT, store_of};
use ax_disk::MemDisk;
use std::alloc::Global;
use std::test::Fail;

/// What the program answers to the query with a condition over a store, and how often it reads the disk for that.
fn reads_for(alloc: Global, disk: &mut MemDisk, condition: &str) -> Result<(u64, Vec<u8>), Fail> {
    let line = line_of(alloc, condition)?;
    reads_for_line(alloc, disk, line.as_bytes())
}

// Of a range with two ends, written as two conditions, what lies between is read, as of BETWEEN: not all that is above
// the one and all that is below the other, which stands on further pages.
#[test]
fn two_ends_of_a_range_read_what_lies_between(rt: HostRuntime) -> Result<(), Fail> {
    let alloc = rt.alloc();
    let mut disk = store_of(alloc, 4 * COUNT)?;
    let (one, answer) = reads_for(alloc, &mut disk, "c.id BETWEEN '200' AND '209'")?;
    let (two, again) = reads_for(alloc, &mut disk, "c.id >= '200' AND c.id <= '209'")?;
    let (all, _) = reads_for(alloc, &mut disk, "c.id >= '1'")?;
    assert!(rt; answer.ends_with(b"\nend 10\n"));
    assert_eq!(rt; again.as_slice(), answer.as_slice());
    assert_eq!(rt; two, one);
    assert!(rt; all > one);
    Ok(())
}

/// Adds the creation of a document with a text that begins with its number and goes on for 127 letters, and with a list.
fn add_long_text(alloc: Global, script: &mut Vec<u8>, number: usize) -> Result<(), Fail> {
    let line = format!(in alloc;
        "CREATE {{\"id\":\"{number}\",\"s\":\"{number}X\",\"t\":[1,2]}}\n"
    )?;
    let long = lengthened(alloc, line.as_bytes())?;
    Ok(script.extend_from_slice(long.as_slice())?)
}

/// The store of the documents 101 to 300 with such texts, which stand on several pages of the index.
fn store_of_long_texts(alloc: Global) -> Result<MemDisk, Fail> {
    let mut script = Vec::new(alloc);
    for number in 101..=300 {
        add_long_text(alloc, &mut script, number)?;
    }
    store_after(alloc, script.as_slice())
}

/// How a range of texts is asked for: by BETWEEN, by two ends that are parameters or stand beside a JOIN, or by one end.
#[derive(Clone, Copy)]
enum Range {
    Between,
    Given,
    Joined,
    Above,
}

/// The line of the query for a range.
fn query_of_range(alloc: Global, range: Range) -> Result<Vec<u8>, Fail> {
    match range {
        Range::Between => query_of(alloc, "c.s BETWEEN '150X' AND '159X'"),
        Range::Given => query_between(
            alloc,
            "c.s >= @low AND c.s <= @high",
            r#""150X""#,
            r#""159X""#,
        ),
        Range::Joined => query_joined(alloc, "c.s >= '150X' AND c.s <= '159X'"),
        Range::Above => query_of(alloc, "c.s >= '150X'"),
    }
}

/// How its reply ends: ten documents are between the ends, each with two elements, and 151 above the first.
fn end_of_range(range: Range) -> &'static str {
    match range {
        Range::Between => "\nend 10\n",
        Range::Given => "\nend 10\n",
        Range::Joined => "\nend 20\n",
        Range::Above => "\nend 151\n",
    }
}

/// How often the disk is read for a range, where the reply ends so.
fn reads_of_range(alloc: Global, disk: &mut MemDisk, range: Range) -> Result<Option<u64>, Fail> {
    let line = query_of_range(alloc, range)?;
    let (reads, answer) = reads_for_line(alloc, disk, line.as_slice())?;
    if !answer.ends_with(end_of_range(range).as_bytes()) {
        return Ok(None);
    }
    Ok(Some(reads))
}

// Two ends that are parameters, or stand beside a JOIN, read what BETWEEN reads, and not all that is above the one.
#[test]
fn two_ends_of_any_form_read_what_lies_between(rt: HostRuntime) -> Result<(), Fail> {
    let alloc = rt.alloc();
    let mut disk = store_of_long_texts(alloc)?;
    let one = reads_of_range(alloc, &mut disk, Range::Between)?;
    assert!(rt; one.is_some());
    assert_eq!(rt; reads_of_range(alloc, &mut disk, Range::Given)?, one);
    assert_eq!(rt; reads_of_range(alloc, &mut disk, Range::Joined)?, one);
    assert!(rt; reads_of_range(alloc, &mut disk, Range::Above)? > one);
    Ok(())
}

/// How often the disk is read for a condition that document 200 passes and no other.
fn reads_of_one(alloc: Global, disk: &mut MemDisk, condition: &str) -> Result<Option<u64>, Fail> {
    let line = query_of(alloc, condition)?;
    let (reads, answer) = reads_for_line(alloc, disk, line.as_slice())?;
    if answer.as_slice() != b"row \"200\"\nend 1\n".as_slice() {
        return Ok(None);
    }
    Ok(Some(reads))
}

// Of conditions on one property what all of them ask for is read, in whatever order they stand: beside one value none of
// the others is looked for, which have pages of their own.
#[test]
fn one_value_beside_lists_of_values_is_read_alone(rt: HostRuntime) -> Result<(), Fail> {
    const ORDERS: [&str; 3] = [
        "c.s = '200X' AND c.s IN ('150X', '200X') AND c.s IN ('200X', '250X')",
        "c.s IN ('150X', '200X') AND c.s = '200X' AND c.s IN ('200X', '250X')",
        "c.s IN ('150X', '200X') AND c.s IN ('200X', '250X') AND c.s = '200X'",
    ];
    let alloc = rt.alloc();
    let mut disk = store_of_long_texts(alloc)?;
    let alone = reads_of_one(alloc, &mut disk, "c.s = '200X'")?;
    assert!(rt; alone.is_some());
    for condition in ORDERS {
        let reads = reads_of_one(alloc, &mut disk, condition)?;
        assert_eq!(rt; reads, alone, "{condition}");
    }
    Ok(())
}
