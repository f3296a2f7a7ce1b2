ghost use Rattle.std.specs.Prelude.{◌≡◌, ◌<◌, IfOk, OnErr, length, take};
ghost use Rattle.std.specs.Io.{WritesAtMost};
ghost use Rattle.std.specs.Io.KnownBytes.{Appends};
ghost use Rattle.ax_base.specs.Appends.{AppendsPrefix};
ghost use Rattle.ax_faults.specs.Faults.{Rose, HasCause, CountsOnce};

use crate::{Failed, Sink};
use ax_faults::FaultCount;
use std::io::Write;
use std::marker::Model;

/// A sink over a writer of the standard library. It flushes after each piece, tells the bytes that
/// the writer tells, tries no write again, and counts each write or flush that fails and each write
/// that takes nothing of a piece that is not empty.
#[derive(Drop)]
pub struct StdSink<W: Write> {
    inner: W,
    faults: FaultCount,
}

impl<W: Write> Model for StdSink<W> {
    ghost use Rattle.ax_base.specs.Adapter.{Adapter};

    ghost Value = { Adapter };

    ghost view = { λ s. record { told = W.contents s.inner; faults = s.faults } };
}

impl<W: Write> StdSink<W> {
    /// A sink into the writer, with no fault yet.
    pub fn new(inner: W) -> StdSink<W>
        ensures { result ≡ record { told = W.contents inner; faults = 0 } }
    {
        StdSink {
            inner,
            faults: FaultCount::new(),
        }
    }

    /// The writer.
    pub fn into_inner(self) -> W
        ensures { W.contents result ≡ self.told }
    {
        let StdSink { inner, faults: _ } = self;
        inner
    }
}

impl<W: Write> Sink for StdSink<W> {
    ghost written = { λ s. s.told };

    ghost faults = { λ s. s.faults };

    fn write_some(&mut self, bytes: &[u8]) -> Result<usize, Failed>
        ensures bound { WritesAtMost result bytes.now }
        ensures added { IfOk result (λ n. Appends self.old.told self.new.told (take n bytes.now)) }
        ensures nothing { IfOk result (λ n. n ≡ 0 → 0 < length bytes.now
            → Rose self.old.faults self.new.faults) }
        ensures failed { OnErr result (AppendsPrefix self.old.told self.new.told bytes.now) }
        ensures cause { HasCause result self.old.faults self.new.faults }

        // What this sink adds.
        ensures some { IfOk result (λ n. 0 < length bytes.now → 0 < n) }
        ensures counts { CountsOnce result self.old.faults self.new.faults }
    {
        let Ok(count) = self.inner.write(bytes) else {
            self.faults.raise();
            return Err(Failed);
        };
        if self.inner.flush().is_err() || (count == 0 && !bytes.is_empty()) {
            self.faults.raise();
            return Err(Failed);
        }
        Ok(count)
    }
}
