ghost use Rattle.std.specs.Prelude.{◌≡◌, ◌<◌, Some};

use ax_base::{Failed, MemSink, MemSource, Source, Steps};
use ax_disk::{Disk, MemDisk};
use ax_script::{Status, run};
use std::alloc::{AllocError, Global};
use std::marker::Brand;
use std::sync::ledger::{Blank, Ledger};
use std::test::Fail;

/// Room for the output of every script here.
pub const ROOM: usize = 1 << 20;

/// How many calls a disk has for every script here.
pub const CALLS: usize = 4096;

/// A source that gives one byte at each read.
#[derive(Drop)]
struct OneByteSource {
    inner: MemSource,
}

impl OneByteSource {
    fn new(inner: MemSource) -> OneByteSource {
        OneByteSource { inner }
    }
}

impl Source for OneByteSource {
    ghost rest = { λ s. Some s.inner.remaining };

    ghost faults = { λ s. s.inner.calls.faults };

    fn read_some(&mut self, buf: &mut [u8]) -> Result<usize, Failed> {
        let count = buf.len().min(1);
        self.inner.read_some(&mut buf[..count])
    }
}

/// A fresh disk in memory, with room for every script here.
pub fn fresh_disk(alloc: Global) -> Result<MemDisk, Fail> {
    let (root, a, b) = (Vec::new(alloc), Vec::new(alloc), Vec::new(alloc));
    Ok(MemDisk::make(alloc, root, a, b, ROOM, CALLS, Vec::new(alloc))?)
}

/// Calls `run` with a counter that begins at 0.
fn run_counted<D: Disk, S: Source, L: Ledger>(
    alloc: Global,
    words: &[String],
    disk: &mut D,
    source: &mut S,
    sink: &mut MemSink,
    blank: Blank,
) -> Status
    requires name { blank.name ≡ L.name }
    requires parts { blank.parts ≡ L.parts }
    requires some { 0 < blank.parts }
{
    let mut steps = Steps::<L>::begin(blank);
    run(alloc, words, disk, source, sink, &mut steps)
}

/// The status of a call of `run` with these words.
pub fn run_words<D: Disk, S: Source>(
    alloc: Global,
    words: &[&str],
    disk: &mut D,
    source: &mut S,
    sink: &mut MemSink,
) -> Result<Status, AllocError> {
    let mut list = Vec::new(alloc);
    for word in words {
        list.push(String::from_str(alloc, word)?)?;
    }
    Ok(run_counted::<D, S, Brand>(alloc, list.as_slice(), disk, source, sink, Blank::new(1)))
}

/// The status and the output of a script over this disk.
pub fn output_over<D: Disk>(
    alloc: Global,
    disk: &mut D,
    script: &[u8],
) -> Result<(Status, Vec<u8>), Fail> {
    let mut source = MemSource::make(Vec::from_slice(alloc, script)?, Vec::new(alloc));
    let mut sink = MemSink::make(alloc, ROOM, Vec::new(alloc))?;
    let status = run_words(alloc, &["run", "demo"], disk, &mut source, &mut sink)?;
    Ok((status, Vec::from_slice(alloc, sink.bytes())?))
}

/// The status and the output of a script, with the reads and writes that are to fail and the bytes
/// that the sink has room for.
pub fn output_of(
    alloc: Global,
    script: &[u8],
    failing_reads: &[u64],
    failing_writes: &[u64],
    room: usize,
) -> Result<(Status, Vec<u8>), Fail> {
    let reads = Vec::from_slice(alloc, failing_reads)?;
    let writes = Vec::from_slice(alloc, failing_writes)?;
    let mut source = MemSource::make(Vec::from_slice(alloc, script)?, reads);
    let mut sink = MemSink::make(alloc, room, writes)?;
    let mut disk = fresh_disk(alloc)?;
    let status = run_words(alloc, &["run", "demo"], &mut disk, &mut source, &mut sink)?;
    Ok((status, Vec::from_slice(alloc, sink.bytes())?))
}

/// The status and the output of a script of which each read gives one byte.
pub fn output_by_bytes(alloc: Global, script: &[u8]) -> Result<(Status, Vec<u8>), Fail> {
    let bytes = MemSource::make(Vec::from_slice(alloc, script)?, Vec::new(alloc));
    let mut source = OneByteSource::new(bytes);
    let mut sink = MemSink::make(alloc, ROOM, Vec::new(alloc))?;
    let mut disk = fresh_disk(alloc)?;
    let status = run_words(alloc, &["run", "demo"], &mut disk, &mut source, &mut sink)?;
    Ok((status, Vec::from_slice(alloc, sink.bytes())?))
}
