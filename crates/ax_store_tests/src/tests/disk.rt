//! What a disk in memory does, by bytes that were worked out by hand.
use ax_disk::{DeadDisk, Disk, DiskFailed, Extent, FuseDisk, MemDisk};
use std::alloc::{AllocError, Global};
use std::process::Abort;
use std::test::Fail;

#[derive(Drop)]
enum Op {
    Attach,
    Length(u64),
    /// A read at an offset, and the bytes that it gives.
    Read(u64, &'static [u8]),
    Write(u64, &'static [u8]),
    Cut(u64),
    Sync,
    Crash(bool),
}

/// A call, whether it succeeds, and the list after it.
#[derive(Drop)]
struct Row {
    ext: Extent,
    op: Op,
    ok: bool,
    list: &'static [u8],
}

fn act(rt: &impl Abort, disk: &mut MemDisk, row: &Row) -> Result<(), DiskFailed> {
    match row.op {
        Op::Attach => disk.attach("demo"),
        Op::Length(want) => {
            let len = disk.len(row.ext)?;
            assert_eq!(rt; len, want);
            Ok(())
        }
        Op::Read(at, want) => {
            let mut buf = [0xEE; 4];
            assert!(rt; want.len() <= 4);
            disk.read(row.ext, at, &mut buf[..want.len()])?;
            assert_eq!(rt; &buf[..want.len()], want);
            Ok(())
        }
        Op::Write(at, bytes) => {
            let len = disk.bytes(row.ext).len() as u64;
            assert!(rt; at <= len);
            disk.write_at(row.ext, at, bytes)
        }
        Op::Cut(len) => disk.cut(row.ext, len),
        Op::Sync => disk.sync(),
        Op::Crash(keep) => {
            disk.crash(keep);
            Ok(())
        }
    }
}

fn reads_as(disk: &MemDisk, ext: Extent, list: &[u8]) -> bool {
    disk.bytes(ext) == list
}

/// Acts out the rows, and sees that a call counts a fault where it fails, and there alone.
fn act_all(rt: &impl Abort, disk: &mut MemDisk, rows: &[Row]) {
    for (i, row) in rows.iter().enumerate() {
        let faults = disk.fault_count();
        let done = act(rt, disk, row).is_ok();
        let counted = disk.fault_count() != faults;
        let agrees = reads_as(disk, row.ext, row.list);
        assert_eq!(rt; done, row.ok, "row {i}");
        assert_eq!(rt; counted, !row.ok, "row {i}");
        assert!(rt; agrees, "row {i}");
    }
}

fn call(ext: Extent, op: Op, ok: bool, list: &'static [u8]) -> Row {
    Row { ext, op, ok, list }
}

/// A disk with this list as its area A, one byte in B and an empty root.
fn disk_with(
    alloc: Global,
    a: &[u8],
    room: usize,
    calls: usize,
    failing: &[u64],
) -> Result<MemDisk, Fail> {
    let disk = MemDisk::make(
        alloc,
        Vec::new(alloc),
        Vec::from_slice(alloc, a)?,
        Vec::from_slice(alloc, &[9])?,
        room,
        calls,
        Vec::from_slice(alloc, failing)?,
    )?;
    Ok(disk)
}

// Room for 12 bytes and 16 calls, of which the numbers 7, 9, 11 and 12 fail. A crash is no call.
#[test]
fn calls_failures_and_crashes(rt: HostRuntime) -> Result<(), Fail> {
    let mut disk = disk_with(rt.alloc(), &[1, 2, 3, 4], 12, 16, &[7, 9, 11, 12])?;
    let a = Extent::A;
    let rows = [
        call(a, Op::Read(2, &[3, 4, 0]), true, &[1, 2, 3, 4]),
        call(a, Op::Write(1, &[8, 8]), true, &[1, 8, 8, 4]),
        call(a, Op::Crash(false), true, &[1, 2, 3, 4]),
        call(a, Op::Write(3, &[5, 6]), true, &[1, 2, 3, 5, 6]),
        call(a, Op::Sync, true, &[1, 2, 3, 5, 6]),
        call(a, Op::Write(0, &[7]), true, &[7, 2, 3, 5, 6]),
        call(a, Op::Crash(true), true, &[7, 2, 3, 5, 6]),
        call(a, Op::Cut(2), true, &[7, 2]),
        // Half of a write that fails is done.
        call(a, Op::Write(2, &[4, 4, 4]), false, &[7, 2, 4]),
        call(a, Op::Cut(9), true, &[7, 2, 4]),
        // A cut that fails is not.
        call(a, Op::Cut(1), false, &[7, 2, 4]),
        call(a, Op::Read(0, &[7, 2, 4, 0]), true, &[7, 2, 4]),
        call(a, Op::Sync, false, &[7, 2, 4]),
        call(a, Op::Crash(false), true, &[7, 2, 3, 5, 6]),
        call(a, Op::Read(0, &[7]), false, &[7, 2, 3, 5, 6]),
        // Past the room nothing is written.
        call(a, Op::Write(5, &[1; 5]), false, &[7, 2, 3, 5, 6]),
        call(Extent::Root, Op::Write(0, &[6]), true, &[6]),
        call(Extent::B, Op::Write(1, &[2, 2]), true, &[9, 2, 2]),
        call(Extent::B, Op::Cut(1), true, &[9]),
        // Past the calls nothing is done.
        call(a, Op::Sync, false, &[7, 2, 3, 5, 6]),
        call(Extent::Root, Op::Crash(true), true, &[6]),
    ];
    act_all(&rt, &mut disk, &rows);
    assert_eq!(rt; disk.reads(), 3);
    Ok(())
}

#[test]
fn past_the_stated_calls_each_call_fails(rt: HostRuntime) -> Result<(), Fail> {
    let mut disk = disk_with(rt.alloc(), &[1, 2], 9, 3, &[])?;
    let a = Extent::A;
    let rows = [
        call(a, Op::Attach, true, &[1, 2]),
        call(a, Op::Length(2), true, &[1, 2]),
        call(a, Op::Read(1, &[2]), true, &[1, 2]),
        call(a, Op::Attach, false, &[1, 2]),
        call(a, Op::Length(2), false, &[1, 2]),
        call(a, Op::Read(1, &[2]), false, &[1, 2]),
        call(a, Op::Write(0, &[5]), false, &[1, 2]),
        call(a, Op::Cut(0), false, &[1, 2]),
        call(a, Op::Sync, false, &[1, 2]),
    ];
    act_all(&rt, &mut disk, &rows);
    assert_eq!(rt; disk.reads(), 2);
    Ok(())
}

// Of five bytes the first two are written, of one byte none. All of them take room: 8 bytes are
// given.
#[test]
fn torn_writes_leave_their_first_half_and_take_room_for_all(rt: HostRuntime) -> Result<(), Fail> {
    let mut disk = disk_with(rt.alloc(), &[1, 2, 3, 4], 8, 9, &[1, 2, 4])?;
    let a = Extent::A;
    let rows = [
        call(a, Op::Write(3, &[5, 6, 7, 8, 9]), false, &[1, 2, 3, 5, 6]),
        call(a, Op::Write(0, &[5]), false, &[1, 2, 3, 5, 6]),
        call(a, Op::Write(0, &[1, 1, 1]), false, &[1, 2, 3, 5, 6]),
        call(a, Op::Sync, false, &[1, 2, 3, 5, 6]),
        call(a, Op::Crash(false), true, &[1, 2, 3, 4]),
        call(a, Op::Write(4, &[1, 1]), true, &[1, 2, 3, 4, 1, 1]),
        call(a, Op::Write(0, &[5]), false, &[1, 2, 3, 4, 1, 1]),
    ];
    act_all(&rt, &mut disk, &rows);
    Ok(())
}

/// Three calls that change nothing.
fn three_calls<D: Disk>(disk: &mut D) -> Result<(), DiskFailed> {
    let len = disk.len(Extent::A)?;
    disk.cut(Extent::A, len)?;
    disk.sync()
}

// The disk beneath answers so many calls and no more, so none of them reaches it twice.
#[test]
fn a_fuse_passes_each_call_on_once(rt: HostRuntime) -> Result<(), Fail> {
    for calls in 0..4u64 {
        let disk = disk_with(rt.alloc(), &[1, 2], 0, 3, &[])?;
        let mut fuse = FuseDisk::make(disk, calls);
        assert_eq!(rt; three_calls(&mut fuse).is_ok(), calls == 3, "{calls} calls");
        let disk = fuse.into_inner();
        assert_eq!(rt; disk.fault_count(), 0, "{calls} calls");
    }
    Ok(())
}

fn length_at<D: Disk>(disk: &mut D, name: &str) -> Result<u64, DiskFailed> {
    disk.attach(name)?;
    disk.len(Extent::B)
}

#[test]
fn a_name_is_attached(rt: HostRuntime) -> Result<(), Fail> {
    let mut disk = disk_with(rt.alloc(), &[], 0, 4, &[])?;
    assert_eq!(rt; length_at(&mut disk, "demo"), Ok(1));
    assert_eq!(rt; length_at(&mut FuseDisk::make(disk, 2), "demo"), Ok(1));
    Ok(())
}

#[test]
fn a_dead_disk_fails_each_call(rt: HostRuntime) {
    let mut dead = DeadDisk::new();
    let mut buf = [7; 2];
    assert_eq!(rt; length_at(&mut dead, "demo"), Err(DiskFailed));
    assert_eq!(rt; dead.len(Extent::A), Err(DiskFailed));
    assert_eq!(rt; dead.read(Extent::A, 0, &mut buf), Err(DiskFailed));
    assert_eq!(rt; dead.write_at(Extent::Root, 9, &buf), Err(DiskFailed));
    assert_eq!(rt; dead.cut(Extent::B, 0), Err(DiskFailed));
    assert_eq!(rt; dead.sync(), Err(DiskFailed));
}
