//! Stores with a log above 64 KiB, with the last number, and with more than 65,536 rows of one
//! document.
use crate::tests::built::built;
use crate::tests::script::{disk_with, fresh_disk, output_over};
use ax_disk::MemDisk;
use std::alloc::Global;
use std::process::Abort;
use std::test::Fail;

/// Do the lines have these replies?
fn replies(
    alloc: Global,
    disk: &mut MemDisk,
    script: &[u8],
    expected: &[u8],
) -> Result<bool, Fail> {
    match output_over(alloc, disk, script)? {
        Some(output) => Ok(output.as_slice() == expected),
        None => Ok(false),
    }
}

// A document has 60,000 bytes at most, as these have, so two of them fill more than one window over the log. The
// second line has more bytes than are read at once.
#[test]
fn a_log_above_64_kib_is_opened(rt: HostRuntime) -> Result<(), Fail> {
    let alloc = rt.alloc();
    let one = built(alloc, "{\"id\":\"a\",\"v\":\"", "x", 59_983, "\"}")?;
    let two = built(alloc, "{\"id\":\"b\",\"v\":\"", "y", 59_983, "\"}")?;
    let spaces = built(alloc, "", " ", 100_000, "")?;
    let writes = format!(in alloc; "CREATE {one}\nUPSERT {spaces}{two}\nREPLACE {two}\n")?;
    let mut disk = fresh_disk(alloc)?;
    assert!(rt; replies(alloc, &mut disk, writes.as_bytes(), b"ok\nok\nok\n")?);
    let query = b"READ b\nQUERY {\"query\":\"SELECT * FROM c\"}";
    let rows = format!(in alloc; "doc {two}\nrow {one}\nrow {two}\nend 2\n")?;
    assert!(rt; replies(alloc, &mut disk, query, rows.as_bytes())?);
    Ok(())
}

// A meta part whose next number is the one before the last, which no document takes.
#[test]
fn the_last_number_is_taken_and_no_other(rt: HostRuntime) -> Result<(), Fail> {
    let alloc = rt.alloc();
    let area = b"\x01\x11\0\0\0\0\0\0\0\x01\0\0\0\0\x08\0\0\0\xFE\xFF\xFF\xFF\0\0\0\0\0";
    let mut disk = disk_with(alloc, area)?;
    let writes = b"UPSERT {\"id\":\"a\"}\nUPSERT {\"id\":\"b\"}\nUPSERT {\"id\":\"a\",\"v\":1}\n";
    assert!(rt; replies(alloc, &mut disk, writes, b"ok\nerr 15 full\nok\n")?);
    let query = b"UPSERT {\"id\":\"b\"}\nQUERY {\"query\":\"SELECT * FROM c\"}";
    let expected = b"err 15 full\nrow {\"id\":\"a\",\"v\":1}\nend 1\n";
    assert!(rt; replies(alloc, &mut disk, query, expected)?);
    Ok(())
}

// 257 times 257 rows, of which all but the last are passed over.
#[test]
fn a_document_has_66049_rows_in_order(rt: HostRuntime) -> Result<(), Fail> {
    let alloc = rt.alloc();
    let document = built(alloc, "UPSERT {\"id\":\"a\",\"t\":[1", ",1", 256, "]}")?;
    let mut disk = fresh_disk(alloc)?;
    assert!(rt; replies(alloc, &mut disk, document.as_bytes(), b"ok\n")?);
    let query =
        b"QUERY {\"query\":\"SELECT VALUE u FROM c JOIN t IN c.t JOIN u IN c.t ORDER BY c.id OFFSET 66048 LIMIT 2\"}";
    assert!(rt; replies(alloc, &mut disk, query, b"row 1\nend 1\n")?);
    Ok(())
}
