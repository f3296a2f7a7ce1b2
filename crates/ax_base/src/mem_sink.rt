ghost use Rattle.std.specs.Prelude.{◌≡◌, ◌<◌, ◌≤◌, ◌↔◌, ◌+◌, ◌-◌, [], Some, IsErr, IfOk, OnOk, OnErr, length, take, min};
ghost use Rattle.std.specs.Io.{WritesAtMost};
ghost use Rattle.std.specs.Io.KnownBytes.{Appends};
ghost use Rattle.ax_base.specs.Appends.{AppendsPrefix};
ghost use Rattle.ax_faults.specs.Faults.{Rose, HasCause};
ghost use Rattle.ax_base.specs.Calls.{after_success, after_failure, RefusesPiece};

use crate::call_count::CallCount;
use crate::{Failed, Memory, Sink};
use std::alloc::Global;
use std::marker::Model;

/// A sink in memory, which takes a stated number of bytes, takes no memory after it is made, and
/// fails at chosen calls and where it has no more room.
#[derive(Drop)]
pub struct MemSink {
    bytes: Vec<u8>,
    capacity: usize,
    calls: CallCount,
}

impl Model for MemSink {
    ghost use Rattle.std.specs.Prelude.{◌≤◌, vec_len, vec_capacity};
    ghost use Rattle.ax_base.specs.Calls.{SinkState};

    ghost Value = { SinkState };

    ghost view = { λ s.
        record { written = s.bytes.items; capacity = s.capacity; calls = s.calls } };

    ghost invariant = { λ s. (vec_len s.bytes ≤ s.capacity) × (s.capacity ≤ vec_capacity s.bytes) };
}

impl MemSink {
    /// An empty sink for `room` bytes. Its calls are numbered from 1, and those in `failing` fail.
    pub fn make(alloc: Global, room: usize, failing: Vec<u64>) -> Result<MemSink, Memory>
        ensures empty { IfOk result (λ sink. sink.written ≡ []) }
        ensures capacity { IfOk result (λ sink. sink.capacity ≡ room) }
        ensures calls { IfOk result (λ sink. sink.calls
            ≡ record { made = 0; faults = 0; failing = failing.items }) }
    {
        Ok(MemSink {
            bytes: Vec::with_capacity(alloc, room)?,
            capacity: room,
            calls: CallCount::new(failing),
        })
    }

    /// What was written.
    pub fn bytes(&self) -> &[u8]
        ensures { result.now ≡ self.now.written }
    {
        self.bytes.as_slice()
    }
}

impl Sink for MemSink {
    ghost written = { λ s. Some s.written };

    ghost faults = { λ s. s.calls.faults };

    /// Takes as many of the bytes as there is room for, unless the call is to fail.
    ///
    /// `Failed` where the call is to fail, or the piece is not empty and there is room for none of
    /// it. Nothing is then taken.
    fn write_some(&mut self, bytes: &[u8]) -> Result<usize, Failed>
        ensures bound { WritesAtMost result bytes.now }
        ensures added { IfOk result (λ n.
            Appends (Some self.old.written) (Some self.new.written) (take n bytes.now)) }
        ensures nothing { IfOk result (λ n. n ≡ 0 → 0 < length bytes.now
            → Rose self.old.calls.faults self.new.calls.faults) }
        ensures failed { OnErr result
            (AppendsPrefix (Some self.old.written) (Some self.new.written) bytes.now) }
        ensures cause { HasCause result self.old.calls.faults self.new.calls.faults }

        // What this sink adds: how many bytes, and which calls fail.
        ensures count { IfOk result (λ n. n
            ≡ min (length bytes.now) (self.old.capacity - length self.old.written)) }
        ensures fails { IsErr result ↔ RefusesPiece self.old bytes.now }
        ensures whole { self.old.calls.failing ≡ []
            → length self.old.written + length bytes.now ≤ self.old.capacity
            → result ≡ Ok (length bytes.now) }
        ensures capacity { self.new.capacity ≡ self.old.capacity }
        ensures unchanged { OnErr result (self.new.written ≡ self.old.written) }
        ensures ok_calls { OnOk result (self.new.calls ≡ after_success self.old.calls) }
        ensures err_calls { OnErr result (self.new.calls ≡ after_failure self.old.calls) }
    {
        self.calls.next()?;
        let count = bytes.len().min(self.capacity - self.bytes.len());
        if count == 0 && !bytes.is_empty() {
            return Err(self.calls.fail());
        }
        let Ok(()) = self.bytes.extend_from_slice(&bytes[..count]) else {
            unreachable!();
        };
        Ok(count)
    }
}
