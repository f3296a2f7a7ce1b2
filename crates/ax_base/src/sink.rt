ghost use Rattle.std.specs.Prelude.{◌≡◌, ◌<◌, ◌≤◌, ℕ, List, Option, length, take, IfOk, OnOk, OnErr};
ghost use Rattle.std.specs.Io.{WritesAtMost};
ghost use Rattle.std.specs.Io.KnownBytes.{Appends};
ghost use Rattle.ax_base.specs.Appends.{AppendsPrefix};
ghost use Rattle.ax_faults.specs.Faults.{Rose, HasCause};

use crate::Failed;

/// Bytes go here, in pieces and in order.
pub trait Sink {
    /// The bytes that it was given: `Some` where the sink tells them, and it then goes on telling.
    /// Of `None` nothing is said.
    ghost written: { Self → Option (List ℕ) };

    /// How often it failed, up to 2^64 - 1.
    ghost faults: { Self → ℕ };

    /// Writes a prefix of `bytes`, and answers how many. Taking none of a piece that is not empty
    /// counts as a fault.
    ///
    /// `Failed` where the sink could not write. It has then counted a fault, and may have taken a
    /// prefix of the bytes.
    fn write_some(&mut self, bytes: &[u8]) -> Result<usize, Failed>
        ensures bound { WritesAtMost result bytes.now }
        ensures added { IfOk result (λ n.
            Appends (written self.old) (written self.new) (take n bytes.now)) }
        ensures nothing { IfOk result (λ n. n ≡ 0 → 0 < length bytes.now
            → Rose (faults self.old) (faults self.new)) }
        ensures failed { OnErr result
            (AppendsPrefix (written self.old) (written self.new) bytes.now) }
        ensures cause { HasCause result (faults self.old) (faults self.new) };
}

/// Writes all the bytes, in as many pieces as the sink takes them.
///
/// `Failed` where a write failed, or took nothing. The sink has then taken a prefix of the bytes.
pub fn write_all<K: Sink>(sink: &mut K, bytes: &[u8]) -> Result<(), Failed>
    ensures added { OnOk result (Appends (K.written sink.old) (K.written sink.new) bytes.now) }
    ensures failed { OnErr result
        (AppendsPrefix (K.written sink.old) (K.written sink.new) bytes.now) }
    ensures cause { HasCause result (K.faults sink.old) (K.faults sink.new) }
{
    let mut at = 0;
    while at < bytes.len() {
        let count = sink.write_some(&bytes[at..])?;
        if count == 0 {
            return Err(Failed);
        }
        at += count;
    }
    Ok(())
}
