//! What outlives a run, and what a crash leaves.
use ax_disk::{Extent, FuseDisk, MemDisk};
use ax_script::Status;
use ax_script_support::{CALLS, ROOM, fresh_disk, output_over};
use std::alloc::Global;
use std::test::Fail;

const UPSERT: &[u8] = b"UPSERT {\"id\":\"a\"}";

const QUERY: &[u8] = b"QUERY {\"query\":\"SELECT * FROM c\"}";

const THERE: &[u8] = b"row {\"id\":\"a\"}\nend 1\n";

const ABSENT: &[u8] = b"end 0\n";

/// The open root slot of version 1, area 1 and generation 1, a closed one, and the last byte.
pub const ROOT: &[u8] =
    b"\x01\x01\x00\x01\x01\x00\x00\x00\x00\x00\x00\x00AXDB\x00\x00\x00\x00\x00\x00\x00\x00\x00\x00\x00\x00\x00\x00\x00\x00E";

/// A disk with these bytes in its root and its first area.
pub fn disk_of(alloc: Global, root: &[u8], a: &[u8]) -> Result<MemDisk, Fail> {
    let root = Vec::from_slice(alloc, root)?;
    let a = Vec::from_slice(alloc, a)?;
    let b = Vec::new(alloc);
    Ok(MemDisk::make(alloc, root, a, b, ROOM, CALLS, Vec::new(alloc))?)
}

#[test]
fn what_one_run_stores_the_next_one_answers(rt: HostRuntime) -> Result<(), Fail> {
    let alloc = rt.alloc();
    let mut disk = fresh_disk(alloc)?;
    let (status, output) = output_over(alloc, &mut disk, b"")?;
    assert_eq!(rt; status, Status::Done);
    assert!(rt; output.is_empty());
    let (status, output) = output_over(alloc, &mut disk, UPSERT)?;
    assert_eq!(rt; status, Status::Done);
    assert_eq!(rt; output.as_slice(), b"ok\n".as_slice());
    let (status, output) = output_over(alloc, &mut disk, QUERY)?;
    assert_eq!(rt; status, Status::Done);
    assert_eq!(rt; output.as_slice(), THERE);
    assert_eq!(rt; disk.bytes(Extent::Root), ROOT);
    Ok(())
}

// The disk stops after so many calls of the run; a store that was crashed then, either way, has the
// document where its reply was written.
#[test]
fn no_acknowledged_line_is_lost(rt: HostRuntime) -> Result<(), Fail> {
    let alloc = rt.alloc();
    for calls in 0..30u64 {
        for keep in [true, false] {
            let mut fuse = FuseDisk::make(fresh_disk(alloc)?, calls);
            let (status, output) = output_over(alloc, &mut fuse, UPSERT)?;
            let mut disk = fuse.into_inner();
            disk.crash(keep);
            let (ended, found) = output_over(alloc, &mut disk, QUERY)?;
            assert_eq!(rt; ended, Status::Done, "{calls} {keep}");
            let is_there = found.as_slice() == THERE;
            assert!(rt; is_there || found.as_slice() == ABSENT, "{calls} {keep}");
            if status == Status::Done {
                assert_eq!(rt; output.as_slice(), b"ok\n".as_slice(), "{calls} {keep}");
                assert!(rt; is_there, "{calls} {keep}");
            } else {
                assert_eq!(rt; status, Status::DiskFault, "{calls} {keep}");
                assert!(rt; output.is_empty(), "{calls} {keep}");
            }
        }
    }
    Ok(())
}

// A meta part whose next number is the last one; and a frame that runs past the end.
#[test]
fn images_are_judged(rt: HostRuntime) -> Result<(), Fail> {
    let alloc = rt.alloc();
    let mut disk = disk_of(alloc, ROOT, FULL)?;
    let (status, output) = output_over(alloc, &mut disk, UPSERT)?;
    assert_eq!(rt; status, Status::Done);
    assert_eq!(rt; output.as_slice(), b"err 15 full\n".as_slice());
    let broken = b"\x01\x05\x00\x00\x00\x00\x00\x00\x00\x00";
    let mut disk = disk_of(alloc, ROOT, broken)?;
    let (status, output) = output_over(alloc, &mut disk, UPSERT)?;
    assert_eq!(rt; status, Status::Damaged { extent: 1, at: 0 });
    assert!(rt; output.is_empty());
    Ok(())
}

/// A meta part whose next number is the last one.
const FULL: &[u8] =
    b"\x01\x11\x00\x00\x00\x00\x00\x00\x00\x01\x00\x00\x00\x00\x08\x00\x00\x00\xFF\xFF\xFF\xFF\x00\x00\x00\x00\x00";

/// The store that a script leaves, in which then no number is left.
fn filled(alloc: Global, script: &[u8]) -> Result<MemDisk, Fail> {
    let mut disk = fresh_disk(alloc)?;
    let _written = output_over(alloc, &mut disk, script)?;
    let mut area = Vec::from_slice(alloc, disk.bytes(Extent::A))?;
    // The byte that ends the area stands behind the new frame again.
    let _end = area.pop();
    area.extend_from_slice(FULL)?;
    disk_of(alloc, disk.bytes(Extent::Root), area.as_slice())
}

// Where nothing can be created, a creation of a held id is a conflict all the same, and what is held is written.
#[test]
fn a_full_store_is_written(rt: HostRuntime) -> Result<(), Fail> {
    let alloc = rt.alloc();
    let mut disk = filled(alloc, b"CREATE {\"id\":\"a\"}\n")?;
    let script =
        b"CREATE {\"id\":\"a\"}\nCREATE {\"id\":\"b\"}\nREPLACE {\"id\":\"a\",\"n\":1}\nREAD a\nDELETE a\nUPSERT {\"id\":\"a\"}\n";
    let (status, output) = output_over(alloc, &mut disk, script)?;
    assert_eq!(rt; status, Status::Done);
    let expected =
        b"err 7 conflict\nerr 15 full\nok\ndoc {\"id\":\"a\",\"n\":1}\nok\nerr 15 full\n";
    assert_eq!(rt; output.as_slice(), expected.as_slice());
    Ok(())
}

/// A document whose text is none, at 9, and a meta part.
const SPOILED: &[u8] =
    b"\x01\x25\x00\x00\x00\x00\x00\x00\x00\x03\x01\x00\x00\x00\x0B\x00\x00\x00\x00{\"id\":xyz}\x01\x00\x00\x00\x00\x08\x00\x00\x00\x02\x00\x00\x00\x00\x00\x00\x00\x00";

// The store is opened, and what needs no look at the text is served; a query that reads it ends the
// run, with the place of the document's part.
#[test]
fn a_text_that_is_none_is_damage(rt: HostRuntime) -> Result<(), Fail> {
    let alloc = rt.alloc();
    let damaged = Status::Damaged { extent: 1, at: 9 };
    for (script, expected, output) in [
        (
            b"UPSERT {\"id\":\"b\"}\nQUERY {\"query\":\"SELECT VALUE c.id FROM c\"}\nFOO".as_slice(),
            damaged,
            b"ok\n".as_slice(),
        ),
        (
            b"UPSERT {\"id\":\"b\"}\nREAD b\nFOO",
            Status::Done,
            b"ok\ndoc {\"id\":\"b\"}\nerr 2 command\n",
        ),
    ] {
        let mut disk = disk_of(alloc, ROOT, SPOILED)?;
        let (status, written) = output_over(alloc, &mut disk, script)?;
        assert_eq!(rt; status, expected);
        assert_eq!(rt; written.as_slice(), output);
    }
    Ok(())
}

/// What stands in front of the ten bytes of a document's text, and behind them, in an area whose part of a document begins
/// at 9.
const IN_FRONT: &[u8] =
    b"\x01\x25\x00\x00\x00\x00\x00\x00\x00\x03\x01\x00\x00\x00\x0B\x00\x00\x00\x00";

const BEHIND: &[u8] = b"\x01\x00\x00\x00\x00\x08\x00\x00\x00\x02\x00\x00\x00\x00\x00\x00\x00\x00";

/// Ten bytes each that are JSON and the text of no document: a map without an id, a list, a text, and a map that is not
/// written as a store writes it.
const NO_DOCUMENTS: [&[u8]; 4] = [
    b"{\"a\":1234}",
    b"[12345678]",
    b"\"abcdefgh\"",
    b"{\"id\": \"\"}",
];

/// A store that has this as the text of a document.
fn disk_with(alloc: Global, text: &[u8]) -> Result<MemDisk, Fail> {
    let mut area = Vec::new(alloc);
    area.extend_from_slice(IN_FRONT)?;
    area.extend_from_slice(text)?;
    area.extend_from_slice(BEHIND)?;
    disk_of(alloc, ROOT, area.as_slice())
}

// A query that reads such a text whole ends the run; one that reads a part of it answers. So does one whose condition the
// index answers: the store has no index, and so no document passes by it.
#[test]
fn a_text_of_no_document_is_damage(rt: HostRuntime) -> Result<(), Fail> {
    let alloc = rt.alloc();
    let damaged = Status::Damaged { extent: 1, at: 9 };
    for text in NO_DOCUMENTS {
        let mut disk = disk_with(alloc, text)?;
        let whole = b"QUERY {\"query\":\"SELECT VALUE {\\\"d\\\":c} FROM c\"}\n";
        let (status, written) = output_over(alloc, &mut disk, whole)?;
        assert_eq!(rt; status, damaged);
        assert_eq!(rt; written.as_slice(), b"".as_slice());
    }
    let mut disk = disk_with(alloc, b"{\"a\":1234}")?;
    let lines =
        b"QUERY {\"query\":\"SELECT VALUE c.a FROM c\"}\nQUERY {\"query\":\"SELECT VALUE {\\\"d\\\":c} FROM c WHERE c.a > 1\"}\nQUERY {\"query\":\"SELECT VALUE {\\\"d\\\":c} FROM c WHERE c.a + 0 > 1\"}\n";
    let (status, written) = output_over(alloc, &mut disk, lines)?;
    assert_eq!(rt; status, damaged);
    assert_eq!(rt; written.as_slice(), b"row 1234\nend 1\nend 0\n".as_slice());
    Ok(())
}

/// The store of one document `{"id":"a"}`, whose text begins at 36 in the part at 26, and a delta of a term page at 46; with
/// the byte of this place another one.
pub fn spoiled_at(alloc: Global, place: usize) -> Result<MemDisk, Fail> {
    let mut disk = fresh_disk(alloc)?;
    let _written = output_over(alloc, &mut disk, b"CREATE {\"id\":\"a\"}\n")?;
    turned(alloc, &disk, place, 0xFF)
}

/// A store with this byte at a place of its first area.
pub fn turned(alloc: Global, disk: &MemDisk, place: usize, byte: u8) -> Result<MemDisk, Fail> {
    let mut area = Vec::from_slice(alloc, disk.bytes(Extent::A))?;
    if let Some(there) = area.get_mut(place) {
        *there = byte;
    }
    disk_of(alloc, disk.bytes(Extent::Root), area.as_slice())
}

// Each line that looks an id up reads the index, and is told its damage, with its place.
#[test]
fn damage_of_the_index_is_told(rt: HostRuntime) -> Result<(), Fail> {
    let alloc = rt.alloc();
    let damaged = Status::Damaged { extent: 1, at: 46 };
    for line in [
        b"READ a".as_slice(),
        b"CREATE {\"id\":\"b\"}",
        b"UPSERT {\"id\":\"a\"}",
        b"REPLACE {\"id\":\"a\"}",
        b"DELETE a",
    ] {
        let mut disk = spoiled_at(alloc, 55)?;
        let (status, written) = output_over(alloc, &mut disk, line)?;
        assert_eq!(rt; status, damaged);
        assert!(rt; written.is_empty());
    }
    Ok(())
}

// A write that needs the tree of the document reads its text, and is told that it is none; READ passes it on.
#[test]
fn damage_of_a_text_is_told_by_writes(rt: HostRuntime) -> Result<(), Fail> {
    let alloc = rt.alloc();
    let damaged = Status::Damaged { extent: 1, at: 26 };
    for line in [
        b"UPSERT {\"id\":\"a\"}".as_slice(),
        b"REPLACE {\"id\":\"a\"}",
        b"DELETE a",
    ] {
        let mut disk = spoiled_at(alloc, 43)?;
        let (status, written) = output_over(alloc, &mut disk, line)?;
        assert_eq!(rt; status, damaged);
        assert!(rt; written.is_empty());
    }
    let mut disk = spoiled_at(alloc, 43)?;
    let (status, written) = output_over(alloc, &mut disk, b"CREATE {\"id\":\"a\"}\nREAD a\n")?;
    assert_eq!(rt; status, Status::Done);
    assert_eq!(rt;
        written.as_slice(),
        b"err 7 conflict\ndoc {\"id\":\"\xFF\"}\n".as_slice()
    );
    Ok(())
}

/// A policy of number 1 whose text is none, at 9, and a meta part by which it is the policy now.
const BAD_POLICY: &[u8] =
    b"\x01\x1D\x00\x00\x00\x00\x00\x00\x00\x02\x01\x00\x00\x00\x03\x00\x00\x00xyz\x01\x00\x00\x00\x00\x08\x00\x00\x00\x01\x00\x00\x00\x01\x00\x00\x00\x00";

// A store whose policies make no table is not opened.
#[test]
fn a_policy_text_that_is_none_is_damage(rt: HostRuntime) -> Result<(), Fail> {
    let alloc = rt.alloc();
    let mut disk = disk_of(alloc, ROOT, BAD_POLICY)?;
    let (status, written) = output_over(alloc, &mut disk, UPSERT)?;
    assert_eq!(rt; status, Status::Damaged { extent: 1, at: 9 });
    assert!(rt; written.is_empty());
    Ok(())
}

/// A policy of number 1, and a meta part by which it is the policy now: it excludes `/v/?`, and offers the composite of `/a`
/// upwards and `/b` downwards.
const OTHER_POLICY: &[u8] =
    b"\x01\xF2\x00\x00\x00\x00\x00\x00\x00\x02\x01\x00\x00\x00\xD8\x00\x00\x00{\"automatic\":true,\"compositeIndexes\":[[{\"order\":\"ascending\",\"path\":\"/\\\"a\\\"\"},{\"order\":\"descending\",\"path\":\"/\\\"b\\\"\"}]],\"excludedPaths\":[{\"path\":\"/\\\"v\\\"/?\"}],\"includedPaths\":[{\"path\":\"/*\"}],\"indexingMode\":\"consistent\"}\x01\x00\x00\x00\x00\x08\x00\x00\x00\x01\x00\x00\x00\x01\x00\x00\x00\x00";

/// Orders, and what each is answered over two documents under that policy.
const ORDERS: [(&str, &str); 6] = [
    ("c.a", "row \"x\"\nrow \"y\"\nend 2\n"),
    ("c.v", "err 11 order\n"),
    ("c._etag", "row \"x\"\nrow \"y\"\nend 2\n"),
    ("c.a, c.b DESC", "row \"x\"\nrow \"y\"\nend 2\n"),
    ("c.a DESC, c.b", "row \"y\"\nrow \"x\"\nend 2\n"),
    ("c.a, c.b", "err 11 order\n"),
];

// An order is kept, or refused, by the policy that a store has now.
#[test]
fn an_order_goes_by_the_policy_now(rt: HostRuntime) -> Result<(), Fail> {
    let alloc = rt.alloc();
    let mut disk = disk_of(alloc, ROOT, OTHER_POLICY)?;
    let script =
        b"CREATE {\"id\":\"x\",\"a\":1,\"b\":2,\"v\":3}\nCREATE {\"id\":\"y\",\"a\":1,\"b\":1,\"v\":4}\n";
    let (status, output) = output_over(alloc, &mut disk, script)?;
    assert_eq!(rt; status, Status::Done);
    assert_eq!(rt; output.as_slice(), b"ok\nok\n".as_slice());
    for (order, expected) in ORDERS {
        let line = format!(in alloc;
            "QUERY {{\"query\":\"SELECT VALUE c.id FROM c ORDER BY {order}\"}}"
        )?;
        let (status, output) = output_over(alloc, &mut disk, line.as_bytes())?;
        assert_eq!(rt; status, Status::Done, "{order}");
        assert_eq!(rt; output.as_slice(), expected.as_bytes(), "{order}");
    }
    Ok(())
}
