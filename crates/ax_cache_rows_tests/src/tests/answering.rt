//! Lines served by an engine with a cache of one's choice.
ghost use Rattle.std.specs.Prelude.{◌≡◌, ◌<◌, true, IfOk};
ghost use Rattle.std.specs.FinMap as map;
ghost use Rattle.ax_disk.specs.mem_disk.MemDisk.{disk_history};
ghost use Rattle.ax_engine.specs.Engine.{Works};

use ax_base::{MemSink, Steps};
use ax_cache::{LruPages, NoPages, PageCache};
use ax_disk::MemDisk;
use ax_engine::Engine;
use ax_script::serve_line;
use ax_script_support::{ROOM, fresh_disk};
use std::alloc::Global;
use std::marker::Brand;
use std::process::Abort;
use std::sync::ledger::{Blank, Ledger};
use std::test::Fail;

/// The cache that an engine has.
#[derive(Clone, Copy, Debug)]
pub enum Choice {
    Nothing,
    OnePart,
    ManyParts,
}

/// Each of them.
pub const CHOICES: [Choice; 3] = [Choice::Nothing, Choice::OnePart, Choice::ManyParts];

/// A line with 128 letters in place of each `X`.
fn lengthened(alloc: Global, line: &[u8]) -> Result<Vec<u8>, Fail> {
    let mut long = Vec::new(alloc);
    for byte in line {
        if *byte == b'X' {
            long.extend_from_slice(&[b'a'; 128])?;
        } else {
            long.push(*byte)?;
        }
    }
    Ok(long)
}

/// The engine with this cache over the store of a disk.
pub fn engine_over<C: PageCache + Drop, L: Ledger>(
    alloc: Global,
    disk: &mut MemDisk,
    cache: C,
    steps: &mut Steps<L>,
) -> Result<Engine<C>, Fail>
    requires { C.pages cache ≡ map.empty }
    ensures { IfOk result (λ engine. Works C.pages true engine (disk_history disk.new)) }
{
    let opened = Engine::open_engine(alloc, disk, steps)?;
    Ok(opened.with_cache(cache))
}

/// Serves a line, lengthened.
fn serve_long<C: PageCache, L: Ledger>(
    alloc: Global,
    engine: &mut Engine<C>,
    disk: &mut MemDisk,
    line: &str,
    sink: &mut MemSink,
    steps: &mut Steps<L>,
) -> Result<(), Fail>
    requires { Works C.pages true engine.old (disk_history disk.old) }
    ensures { Works C.pages true engine.new (disk_history disk.new) }
{
    let long = lengthened(alloc, line.as_bytes())?;
    serve_line(alloc, engine, disk, long.as_slice(), sink, steps)?;
    Ok(())
}

/// Serves the lines of a table, one after another.
pub fn serve_lines<C: PageCache, L: Ledger>(
    alloc: Global,
    engine: &mut Engine<C>,
    disk: &mut MemDisk,
    table: &[(&str, &str)],
    sink: &mut MemSink,
    steps: &mut Steps<L>,
) -> Result<(), Fail>
    requires { Works C.pages true engine.old (disk_history disk.old) }
    ensures { Works C.pages true engine.new (disk_history disk.new) }
{
    'lines: for (line, _) in table {
        serve_long(alloc, engine, disk, line, sink, steps)?;
    }
    Ok(())
}

/// What the lines of a table are answered by an engine with this cache, which is opened over the store of a disk.
fn answers_by<C: PageCache + Drop, L: Ledger>(
    alloc: Global,
    disk: &mut MemDisk,
    cache: C,
    table: &[(&str, &str)],
    blank: Blank,
) -> Result<Vec<u8>, Fail>
    requires empty { C.pages cache ≡ map.empty }
    requires name { blank.name ≡ L.name }
    requires parts { blank.parts ≡ L.parts }
    requires some { 0 < blank.parts }
{
    let mut sink = MemSink::make(alloc, ROOM, Vec::new(alloc))?;
    let mut steps = Steps::<L>::begin(blank);
    let mut engine = engine_over(alloc, disk, cache, &mut steps)?;
    serve_lines(alloc, &mut engine, disk, table, &mut sink, &mut steps)?;
    Ok(Vec::from_slice(alloc, sink.bytes())?)
}

fn answers<C: PageCache + Drop>(
    alloc: Global,
    disk: &mut MemDisk,
    cache: C,
    table: &[(&str, &str)],
) -> Result<Vec<u8>, Fail>
    requires { C.pages cache ≡ map.empty }
{
    answers_by::<C, Brand>(alloc, disk, cache, table, Blank::new(1))
}

/// What the lines of a table are answered by an engine with the cache chosen, over the store of a disk.
pub fn answers_over(
    alloc: Global,
    disk: &mut MemDisk,
    choice: Choice,
    table: &[(&str, &str)],
) -> Result<Vec<u8>, Fail> {
    match choice {
        Choice::Nothing => answers(alloc, disk, NoPages, table),
        Choice::OnePart => answers(alloc, disk, LruPages::make(alloc, 1)?, table),
        Choice::ManyParts => answers(alloc, disk, LruPages::make(alloc, 256)?, table),
    }
}

/// The same over a fresh store.
fn answers_with(alloc: Global, choice: Choice, table: &[(&str, &str)]) -> Result<Vec<u8>, Fail> {
    let mut disk = fresh_disk(alloc)?;
    answers_over(alloc, &mut disk, choice, table)
}

/// The replies of a table, one after another.
fn replies(alloc: Global, table: &[(&str, &str)]) -> Result<Vec<u8>, Fail> {
    let mut text = Vec::new(alloc);
    for (_, reply) in table {
        text.extend_from_slice(reply.as_bytes())?;
    }
    Ok(text)
}

/// Sees that the lines of a table are answered so over a fresh store, whatever cache the engine has.
pub fn check(
    rt: &impl Abort,
    alloc: Global,
    what: &str,
    table: &[(&str, &str)],
) -> Result<(), Fail> {
    let expected = replies(alloc, table)?;
    for choice in CHOICES {
        let output = answers_with(alloc, choice, table)?;
        assert_eq!(rt; output.as_slice(), expected.as_slice(), "{what} {choice:?}");
    }
    Ok(())
}
