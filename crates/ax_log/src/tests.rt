//! What a log leaves on a disk that stops or crashes, by bytes that were worked out by hand.

ghost use Rattle.std.specs.Prelude.{ℕ, List, IfOk};
ghost use Rattle.ax_log.specs.Commit.{IsCommitSpelling};

use crate::{Log, LogFault};
use ax_area::{Counting, Which};
use ax_disk::{Extent, FuseDisk, MemDisk};
use ax_frame::{Part, PartsText, write_frame};
use std::alloc::Global;
use std::test::Fail;

/// A whole root: area A counts with generation 1.
const ROOT: [u8; 33] = [
    1, 1, 0, 1, 1, 0, 0, 0, 0, 0, 0, 0, 65, 88, 68, 66, 0, 0, 0, 0, 0, 0, 0, 0, 0, 0, 0, 0, 0, 0,
    0, 0, 69,
];

/// Two open frames of one part each, and a third whose gate is closed.
const AREA: [u8; 57] = [
    1, 10, 0, 0, 0, 0, 0, 0, 0, 3, 1, 0, 0, 0, 1, 0, 0, 0, 9, 1, 10, 0, 0, 0, 0, 0, 0, 0, 3, 2, 0,
    0, 0, 1, 0, 0, 0, 9, 0, 10, 0, 0, 0, 0, 0, 0, 0, 3, 3, 0, 0, 0, 1, 0, 0, 0, 9,
];

/// A disk with this root and this area A, all of it synced.
fn disk_with(alloc: Global, root: &[u8], a: &[u8]) -> Result<MemDisk, Fail> {
    let disk = MemDisk::make(
        alloc,
        Vec::from_slice(alloc, root)?,
        Vec::from_slice(alloc, a)?,
        Vec::new(alloc),
        256,
        64,
        Vec::new(alloc),
    )?;
    Ok(disk)
}

/// The text of a frame of one part. With its gate it takes 19 bytes.
fn frame(alloc: Global) -> Result<Vec<u8>, Fail>
    ensures { IfOk result (λ text. (span : List ℕ) × IsCommitSpelling text.items span) }
{
    let mut parts = PartsText::begin(alloc);
    parts.add(Part {
        kind: 3,
        key: 1,
        payload: &[9],
    })?;
    let text = write_frame(alloc, &parts)?;
    Ok(text)
}

/// Whether a commit succeeds that may make k device calls, and how many bytes of frames are found
/// after a crash.
fn stopped_commit(alloc: Global, k: u64, keep: bool) -> Result<(bool, u64), Fail> {
    let mut disk = disk_with(alloc, &[], &[])?;
    let mut log = Log::open_log(alloc, &mut disk)?;
    let text = frame(alloc)?;
    let mut fuse = FuseDisk::make(disk, k);
    let done = log.commit(&mut fuse, &text).is_ok();
    let mut disk = fuse.into_inner();
    disk.crash(keep);
    let log = Log::open_log(alloc, &mut disk)?;
    Ok((done, log.end()))
}

#[test]
fn a_commit_stopped_after_each_call_is_there_or_not(rt: HostRuntime) -> Result<(), Fail> {
    let ends = [
        (0, false, 0),
        (0, true, 0),
        (1, false, 0),
        (1, true, 0),
        (2, false, 0),
        (2, true, 0),
        (3, false, 0),
        (3, true, 19),
        (4, false, 19),
        (4, true, 19),
    ];
    for (k, keep, end) in ends {
        let found = stopped_commit(rt.alloc(), k, keep)?;
        assert_eq!(rt; found, (k == 4, end), "{k} {keep}");
    }
    Ok(())
}

/// Forms a store by k device calls, crashes, and opens it again.
fn stopped_forming(alloc: Global, k: u64, keep: bool) -> Result<(bool, MemDisk), Fail> {
    let mut fuse = FuseDisk::make(disk_with(alloc, &[], &[])?, k);
    let done = Log::open_log(alloc, &mut fuse).is_ok();
    let mut disk = fuse.into_inner();
    disk.crash(keep);
    let _log = Log::open_log(alloc, &mut disk)?;
    Ok((done, disk))
}

#[test]
fn a_forming_stopped_after_each_call_is_formed_later(rt: HostRuntime) -> Result<(), Fail> {
    for k in 0..12 {
        for keep in [false, true] {
            let (done, disk) = stopped_forming(rt.alloc(), k, keep)?;
            assert_eq!(rt; done, k == 11, "{k} {keep}");
            assert_eq!(rt; disk.bytes(Extent::Root), ROOT.as_slice());
            assert_eq!(rt; disk.bytes(Extent::A), [0].as_slice());
            assert_eq!(rt; disk.bytes(Extent::B), [].as_slice());
        }
    }
    Ok(())
}

#[test]
fn behind_a_closed_gate_nothing_counts(rt: HostRuntime) -> Result<(), Fail> {
    let alloc = rt.alloc();
    for len in 39..58 {
        let mut disk = disk_with(alloc, &ROOT, &AREA[..len])?;
        let log = Log::open_log(alloc, &mut disk)?;
        assert_eq!(rt; log.area(), Extent::A);
        assert_eq!(rt; log.generation(), 1);
        assert_eq!(rt; log.end(), 38);
        let mut part = [0; 10];
        log.read(&mut disk, 28, &mut part)?;
        assert_eq!(rt; part, [3, 2, 0, 0, 0, 1, 0, 0, 0, 9]);
    }
    Ok(())
}

#[test]
fn a_frame_past_the_end_is_damaged(rt: HostRuntime) -> Result<(), Fail> {
    let alloc = rt.alloc();
    let mut disk = disk_with(alloc, &ROOT, &[1, 5, 0, 0, 0, 0, 0, 0, 0, 0])?;
    let opened = Log::open_log(alloc, &mut disk);
    assert_eq!(rt; opened.err(), Some(LogFault::Damaged { extent: 1, at: 0 }));
    Ok(())
}

/// The root in which the second slot is open, of this version, for area A with generation 7.
fn second_root(version: u8) -> [u8; 33] {
    [
        0, 0, 0, 0, 0, 0, 0, 0, 0, 0, 0, 0, 0, 0, 0, 0, 1, version, 0, 1, 7, 0, 0, 0, 0, 0, 0, 0,
        65, 88, 68, 66, 69,
    ]
}

#[test]
fn the_slot_that_counts_is_kept(rt: HostRuntime) -> Result<(), Fail> {
    let alloc = rt.alloc();
    let mut disk = disk_with(alloc, &second_root(1), &[0])?;
    let log = Log::open_log(alloc, &mut disk)?;
    let slot = Counting {
        which: Which::Second,
        version: 1,
        area: Extent::A,
        generation: 7,
    };
    assert_eq!(rt; log.slot(), slot);
    Ok(())
}

#[test]
fn a_later_version_is_newer(rt: HostRuntime) -> Result<(), Fail> {
    let alloc = rt.alloc();
    let mut disk = disk_with(alloc, &second_root(2), &[0])?;
    let opened = Log::open_log(alloc, &mut disk);
    assert_eq!(rt; opened.err(), Some(LogFault::Newer { version: 2 }));
    Ok(())
}
