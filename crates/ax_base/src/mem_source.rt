ghost use Rattle.std.specs.Prelude.{◌≡◌, ◌<◌, ◌≤◌, ◌↔◌, [], Some, Contains, IsErr, IsOk, IfOk, OnOk, OnErr, length, take, drop, min};
ghost use Rattle.std.specs.Io.{ReadsAtMost};
ghost use Rattle.std.specs.Io.KnownBytes.{Consumes, Keeps, IsAtEnd};
ghost use Rattle.ax_faults.specs.Faults.{HasCause};
ghost use Rattle.ax_base.specs.Calls.{next_call, after_success, after_failure};

use crate::call_count::CallCount;
use crate::{Failed, Source};
use std::marker::Model;

/// A source in memory, which tells its bytes and fails at chosen calls and no others.
#[derive(Drop)]
pub struct MemSource {
    bytes: Vec<u8>,
    at: usize,
    calls: CallCount,
}

impl Model for MemSource {
    ghost use Rattle.std.specs.Prelude.{◌≤◌, drop, vec_len};
    ghost use Rattle.ax_base.specs.Calls.{SourceState};

    ghost Value = { SourceState };

    ghost view = { λ s. record { remaining = drop s.at s.bytes.items; calls = s.calls } };

    ghost invariant = { λ s. s.at ≤ vec_len s.bytes };
}

impl MemSource {
    /// A source of these bytes. Its calls are numbered from 1, and those in `failing` fail.
    pub fn make(bytes: Vec<u8>, failing: Vec<u64>) -> MemSource
        ensures remaining { result.remaining ≡ bytes.items }
        ensures calls { result.calls ≡ record { made = 0; faults = 0; failing = failing.items } }
    {
        MemSource {
            bytes,
            at: 0,
            calls: CallCount::new(failing),
        }
    }
}

impl Source for MemSource {
    ghost rest = { λ s. Some s.remaining };

    ghost faults = { λ s. s.calls.faults };

    /// Reads as many bytes as there are and `buf` has room for, unless the call is to fail.
    fn read_some(&mut self, buf: &mut [u8]) -> Result<usize, Failed>
        ensures bound { ReadsAtMost result buf.new }
        ensures taken { IfOk result (λ n.
            Consumes (Some self.old.remaining) (Some self.new.remaining) (take n buf.new)) }
        ensures ended { IfOk result (λ n. n ≡ 0 → 0 < length buf.new
            → IsAtEnd (Some self.new.remaining)) }
        ensures failed { OnErr result (Keeps (Some self.old.remaining) (Some self.new.remaining)) }
        ensures cause { HasCause result self.old.calls.faults self.new.calls.faults }

        // What this source adds: how many bytes, and which calls fail.
        ensures count { IfOk result (λ n. n ≡ min (length self.old.remaining) (length buf.old)) }
        ensures fails { IsErr result ↔ Contains self.old.calls.failing (next_call self.old.calls) }
        ensures never_fails { self.old.calls.failing ≡ [] → IsOk result }
        ensures ok_calls { OnOk result (self.new.calls ≡ after_success self.old.calls) }
        ensures err_calls { OnErr result (self.new.calls ≡ after_failure self.old.calls) }
    {
        self.calls.next()?;
        let count = copy_prefix(&self.bytes[self.at..], buf);
        self.at += count;
        Ok(count)
    }
}

/// Copies as many bytes as both have into the prefix of `to`, and answers how many.
fn copy_prefix(from: &[u8], to: &mut [u8]) -> usize
    ensures count { result ≡ min (length from.now) (length to.old) }
    ensures copied { take result to.new ≡ take result from.now }
{
    let count = from.len().min(to.len());
    to[..count].copy_from_slice(&from[..count]);
    count
}
