ghost use Rattle.std.specs.Prelude.{◌≡◌, ◌<◌, IfOk, OnErr, length, take};
ghost use Rattle.std.specs.Io.{ReadsAtMost};
ghost use Rattle.std.specs.Io.KnownBytes.{Consumes, Keeps, IsAtEnd};
ghost use Rattle.ax_faults.specs.Faults.{HasCause, CountsOnce};

use crate::{Failed, Source};
use ax_faults::FaultCount;
use std::io::Read;
use std::marker::Model;

/// A source over a reader of the standard library. It tells the bytes that the reader tells, tries
/// no read again, and counts each read that fails.
#[derive(Drop)]
pub struct StdSource<R: Read> {
    inner: R,
    faults: FaultCount,
}

impl<R: Read> Model for StdSource<R> {
    ghost use Rattle.ax_base.specs.Adapter.{Adapter};

    ghost Value = { Adapter };

    ghost view = { λ s. record { told = R.remaining s.inner; faults = s.faults } };
}

impl<R: Read> StdSource<R> {
    /// A source of what the reader gives from here on, with no fault yet.
    pub fn new(inner: R) -> StdSource<R>
        ensures { result ≡ record { told = R.remaining inner; faults = 0 } }
    {
        StdSource {
            inner,
            faults: FaultCount::new(),
        }
    }
}

impl<R: Read> Source for StdSource<R> {
    ghost rest = { λ s. s.told };

    ghost faults = { λ s. s.faults };

    fn read_some(&mut self, buf: &mut [u8]) -> Result<usize, Failed>
        ensures bound { ReadsAtMost result buf.new }
        ensures taken { IfOk result (λ n. Consumes self.old.told self.new.told (take n buf.new)) }
        ensures ended { IfOk result (λ n. n ≡ 0 → 0 < length buf.new → IsAtEnd self.new.told) }
        ensures failed { OnErr result (Keeps self.old.told self.new.told) }
        ensures cause { HasCause result self.old.faults self.new.faults }

        // What this source adds.
        ensures counts { CountsOnce result self.old.faults self.new.faults }
    {
        match self.inner.read(buf) {
            Ok(count) => Ok(count),
            Err(_) => {
                self.faults.raise();
                Err(Failed)
            }
        }
    }
}
