//! What tests of filters have in common: the lines of queries, what the program and the plain machine answer to them, and
//! how often the disk is read for that.
use ax_disk::MemDisk;
use ax_plain::PlainMachine;
use ax_script::Status;
use ax_script_support::{fresh_disk, output_over};
use std::alloc::Global;
use std::test::Fail;

/// The store that a script leaves.
pub fn store_after(alloc: Global, script: &[u8]) -> Result<MemDisk, Fail> {
    let mut disk = fresh_disk(alloc)?;
    let _replies = output_over(alloc, &mut disk, script)?;
    Ok(disk)
}

/// The line of a query for the ids of the documents that pass a condition.
pub fn line_of(alloc: Global, condition: &str) -> Result<String, Fail> {
    Ok(format!(in alloc; "QUERY {{\"query\":\"SELECT VALUE c.id FROM c WHERE {condition}\"}}")?)
}

/// The line of such a query whose condition has the parameters `@low` and `@high`.
fn line_between(alloc: Global, condition: &str, low: &str, high: &str) -> Result<String, Fail> {
    Ok(format!(in alloc;
        "QUERY {{\"query\":\"SELECT VALUE c.id FROM c WHERE {condition}\",\"parameters\":[{{\"name\":\"@low\",\"value\":{low}}},{{\"name\":\"@high\",\"value\":{high}}}]}}"
    )?)
}

/// The line of a query for the id of a document with each element `t` of its list, where both pass a condition.
fn line_joined(alloc: Global, condition: &str) -> Result<String, Fail> {
    Ok(format!(in alloc;
        "QUERY {{\"query\":\"SELECT VALUE c.id FROM c JOIN t IN c.t WHERE {condition}\"}}"
    )?)
}

/// What the program answers over a store to a line; nothing where the run ends otherwise.
pub fn answer_to(alloc: Global, disk: &mut MemDisk, line: &[u8]) -> Result<Vec<u8>, Fail> {
    let (status, output) = output_over(alloc, disk, line)?;
    if status != Status::Done {
        return Ok(Vec::new(alloc));
    }
    Ok(output)
}

/// What the program answers over a store to a line, and how often it reads the disk for that.
pub fn reads_for_line(
    alloc: Global,
    disk: &mut MemDisk,
    line: &[u8],
) -> Result<(u64, Vec<u8>), Fail> {
    let before = disk.reads();
    let answer = answer_to(alloc, disk, line)?;
    Ok((disk.reads().abs_diff(before), answer))
}

/// A line with 127 letters in place of each `X`.
pub fn lengthened(alloc: Global, line: &[u8]) -> Result<Vec<u8>, Fail> {
    let mut long = Vec::new(alloc);
    for byte in line {
        if *byte == b'X' {
            long.extend_from_slice(&[b'a'; 127])?;
        } else {
            long.push(*byte)?;
        }
    }
    Ok(long)
}

/// The line of the query with a condition.
pub fn query_of(alloc: Global, condition: &str) -> Result<Vec<u8>, Fail> {
    let line = line_of(alloc, condition)?;
    lengthened(alloc, line.as_bytes())
}

/// The line of the query with a condition and the values of its two ends.
pub fn query_between(
    alloc: Global,
    condition: &str,
    low: &str,
    high: &str,
) -> Result<Vec<u8>, Fail> {
    let line = line_between(alloc, condition, low, high)?;
    lengthened(alloc, line.as_bytes())
}

/// The line of the query for the ids of the documents that pass a condition on the elements of `t`, too.
pub fn query_joined(alloc: Global, condition: &str) -> Result<Vec<u8>, Fail> {
    let line = line_joined(alloc, condition)?;
    lengthened(alloc, line.as_bytes())
}

/// The reply with a row for each letter.
pub fn rows_of(alloc: Global, ids: &str) -> Result<Vec<u8>, Fail> {
    let mut reply = Vec::new(alloc);
    for id in ids.as_bytes() {
        reply.extend_from_slice(b"row \"")?;
        reply.push(*id)?;
        reply.extend_from_slice(b"\"\n")?;
    }
    let count = ids.len();
    let end = format!(in alloc; "end {count}\n")?;
    reply.extend_from_slice(end.as_bytes())?;
    Ok(reply)
}

/// What the program, over a store, and the plain machine answer to a line.
pub fn answers(
    alloc: Global,
    disk: &mut MemDisk,
    machine: &mut PlainMachine,
    line: &[u8],
) -> Result<(Vec<u8>, Vec<u8>), Fail> {
    let (_, output) = output_over(alloc, disk, line)?;
    let plain = machine.answer(alloc, line)?;
    Ok((output, plain))
}
