ghost use Rattle.std.specs.Prelude.{◌≡◌, ◌+◌, ◌<◌, Some};

use crate::{Failed, MemSink, MemSource, Sink, Source, StdSink, StdSource, Steps, write_all};
use std::io;
use std::io::{Cursor, ErrorKind, Read, Write};
use std::marker::Brand;
use std::sync::ledger::{Blank, Ledger};
use std::test::Fail;

/// Takes one byte of each piece.
#[derive(Drop)]
struct Drip {
    inner: MemSink,
}

impl Sink for Drip {
    ghost written = { λ s. Some s.inner.written };

    ghost faults = { λ s. s.inner.calls.faults };

    fn write_some(&mut self, bytes: &[u8]) -> Result<usize, Failed> {
        let prefix = bytes.len().min(1);
        self.inner.write_some(&bytes[..prefix])
    }
}

/// A writer that takes at most so many bytes of a piece, and flushes or does not.
#[derive(Drop)]
struct Reluctant {
    takes: usize,
    flushes: bool,
}

impl Write for Reluctant {
    fn write(&mut self, buf: &[u8]) -> io::Result<usize> {
        Ok(buf.len().min(self.takes))
    }

    fn flush(&mut self) -> io::Result<()> {
        if self.flushes {
            Ok(())
        } else {
            Err(io::Error::from(ErrorKind::Other))
        }
    }
}

/// A reader whose every read fails.
#[derive(Drop)]
struct Broken;

impl Read for Broken {
    fn read(&mut self, _buf: &mut [u8]) -> io::Result<usize> {
        Err(io::Error::from(ErrorKind::Other))
    }
}

#[test]
fn a_source_fails_at_the_chosen_call_and_loses_nothing(rt: HostRuntime) -> Result<(), Fail> {
    for failing in 0..6u64 {
        let bytes = Vec::from_slice(rt.alloc(), b"abcde")?;
        let mut source = MemSource::make(bytes, vec![in rt.alloc(); failing]?);
        let mut pieces = ["ab", "cd", "e", "", ""].into_iter();
        let mut buf = [0u8; 2];
        for call in 1..6u64 {
            let read = source.read_some(&mut buf);
            if call == failing {
                assert_eq!(rt; read, Err(Failed), "call {call}");
            } else {
                let count = read?;
                let piece = pieces.next().ok_or("no piece is left")?;
                assert_eq!(rt; &buf[..count], piece.as_bytes(), "call {call}");
            }
        }
    }
    Ok(())
}

#[test]
fn a_sink_takes_what_fits_and_fails_past_its_room(rt: HostRuntime) -> Result<(), Fail> {
    let mut sink = MemSink::make(rt.alloc(), 5, vec![in rt.alloc(); 2u64]?)?;
    assert_eq!(rt; sink.write_some(b"abc"), Ok(3));
    assert_eq!(rt; sink.write_some(b"x"), Err(Failed));
    assert_eq!(rt; sink.write_some(b""), Ok(0));
    assert_eq!(rt; sink.write_some(b"def"), Ok(2));
    assert_eq!(rt; sink.write_some(b"f"), Err(Failed));
    assert_eq!(rt; sink.write_some(b""), Ok(0));
    assert_eq!(rt; sink.bytes(), b"abcde".as_slice());
    Ok(())
}

#[test]
fn a_whole_piece_is_written_up_to_the_call_that_fails(rt: HostRuntime) -> Result<(), Fail> {
    for (failing, outcome, written) in [
        (1u64, Err(Failed), ""),
        (2, Err(Failed), "a"),
        (3, Err(Failed), "ab"),
        (4, Ok(()), "abc"),
    ] {
        let inner = MemSink::make(rt.alloc(), 3, vec![in rt.alloc(); failing]?)?;
        let mut sink = Drip { inner };
        assert_eq!(rt; write_all(&mut sink, b"abc"), outcome, "call {failing}");
        assert_eq!(rt; sink.inner.bytes(), written.as_bytes(), "call {failing}");
    }
    Ok(())
}

#[test]
fn a_reader_is_passed_on(rt: HostRuntime) -> Result<(), Fail> {
    let mut buf = [0u8; 4];
    let mut slice = StdSource::new(b"abcde".as_slice());
    let mut cursor = StdSource::new(Cursor::new(b"abcde".as_slice()));
    for piece in ["abcd", "e", ""] {
        let count = slice.read_some(&mut buf)?;
        assert_eq!(rt; &buf[..count], piece.as_bytes());
        let count = cursor.read_some(&mut buf)?;
        assert_eq!(rt; &buf[..count], piece.as_bytes());
    }
    let mut broken = StdSource::new(Broken);
    assert_eq!(rt; broken.read_some(&mut buf), Err(Failed));
    Ok(())
}

#[test]
fn a_writer_is_passed_on(rt: HostRuntime) -> Result<(), Fail> {
    let mut sink = StdSink::new(Vec::new(rt.alloc()));
    write_all(&mut sink, b"abc")?;
    write_all(&mut sink, b"de")?;
    assert_eq!(rt; sink.into_inner().as_slice(), b"abcde".as_slice());
    for (takes, flushes, outcome) in [
        (2, true, Ok(2)),
        (9, true, Ok(3)),
        (0, true, Err(Failed)),
        (3, false, Err(Failed)),
    ] {
        let mut sink = StdSink::new(Reluctant { takes, flushes });
        assert_eq!(rt; sink.write_some(b"abc"), outcome, "takes {takes}");
    }
    Ok(())
}

/// Work that counts its steps on whatever ledger it is lent.
fn two_steps<L: Ledger>(steps: &mut Steps<L>)
    ensures { steps.new ≡ steps.old + 2 }
{
    steps.tick();
    steps.tick();
}

/// Makes a counter on the caller's ledger and lends it.
fn counted_from_zero<L: Ledger>(blank: Blank) -> usize
    requires name { blank.name ≡ L.name }
    requires parts { blank.parts ≡ L.parts }
    requires some { 0 < blank.parts }
{
    let mut steps = Steps::<L>::begin(blank);
    two_steps(&mut steps);
    size_of::<Steps<L>>()
}

/// A caller with no ledger of its own takes `Brand`, and says in its `Invariants.antt` that the
/// ledger is that of the blank.
#[test]
fn steps_take_no_bytes(rt: HostRuntime) {
    assert_eq!(rt; counted_from_zero::<Brand>(Blank::new(1)), 0);
}
