//! Scripts over a store on a disk in memory, through the whole program.
ghost use Rattle.std.specs.Prelude.{◌≡◌, ◌<◌};

use ax_base::{MemSink, MemSource, Steps};
use ax_disk::MemDisk;
use ax_script::{Status, run};
use std::alloc::{AllocError, Global};
use std::marker::Brand;
use std::sync::ledger::{Blank, Ledger};
use std::test::Fail;

/// Room for each file, and for the output of every script here.
const ROOM: usize = 1 << 20;

/// How many calls a disk has for every script here.
const CALLS: usize = 4096;

/// The open root slot of version 1, area 1 and generation 1, a closed one, and the last byte.
const ROOT: &[u8] =
    b"\x01\x01\x00\x01\x01\x00\x00\x00\x00\x00\x00\x00AXDB\x00\x00\x00\x00\x00\x00\x00\x00\x00\x00\x00\x00\x00\x00\x00\x00E";

/// A disk with these bytes in its root and its first area.
fn disk_of(alloc: Global, root: &[u8], a: &[u8]) -> Result<MemDisk, Fail> {
    let root = Vec::from_slice(alloc, root)?;
    let a = Vec::from_slice(alloc, a)?;
    let b = Vec::new(alloc);
    Ok(MemDisk::make(alloc, root, a, b, ROOM, CALLS, Vec::new(alloc))?)
}

/// A disk with no store.
pub fn fresh_disk(alloc: Global) -> Result<MemDisk, Fail> {
    disk_of(alloc, b"".as_slice(), b"".as_slice())
}

/// A disk with a store of one area.
pub fn disk_with(alloc: Global, area: &[u8]) -> Result<MemDisk, Fail> {
    disk_of(alloc, ROOT, area)
}

/// Calls `run` with a counter that begins at 0.
fn run_counted<L: Ledger>(
    alloc: Global,
    words: &[String],
    disk: &mut MemDisk,
    source: &mut MemSource,
    sink: &mut MemSink,
    blank: Blank,
) -> Status
    requires name { blank.name ≡ L.name }
    requires parts { blank.parts ≡ L.parts }
    requires some { 0 < blank.parts }
{
    let mut steps = Steps::<L>::begin(blank);
    run(alloc, words, disk, source, sink, &mut steps)
}

/// The status of a script over this disk.
fn run_script(
    alloc: Global,
    disk: &mut MemDisk,
    source: &mut MemSource,
    sink: &mut MemSink,
) -> Result<Status, AllocError> {
    let run = String::from_str(alloc, "run")?;
    let store = String::from_str(alloc, "demo")?;
    let words = [run, store];
    Ok(run_counted::<Brand>(alloc, words.as_slice(), disk, source, sink, Blank::new(1)))
}

/// The output of a script over this disk; `None` where it does not end as it should.
pub fn output_over(
    alloc: Global,
    disk: &mut MemDisk,
    script: &[u8],
) -> Result<Option<Vec<u8>>, Fail> {
    let mut source = MemSource::make(Vec::from_slice(alloc, script)?, Vec::new(alloc));
    let mut sink = MemSink::make(alloc, ROOM, Vec::new(alloc))?;
    let status = run_script(alloc, disk, &mut source, &mut sink)?;
    if status != Status::Done {
        return Ok(None);
    }
    Ok(Some(Vec::from_slice(alloc, sink.bytes())?))
}
