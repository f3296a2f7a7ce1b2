ghost use Rattle.std.specs.Prelude.{◌≡◌, ◌<◌, ◌≤◌, ℕ, List, Option, length, take, IfOk, OnErr};
ghost use Rattle.std.specs.Io.{ReadsAtMost};
ghost use Rattle.std.specs.Io.KnownBytes.{Consumes, Keeps, IsAtEnd};
ghost use Rattle.ax_faults.specs.Faults.{HasCause};

use crate::Failed;

/// Bytes come from here, in pieces and in order.
pub trait Source {
    /// The bytes that are still to come: `Some` where the source tells them, and it then goes on
    /// telling. Of `None` nothing is said.
    ghost rest: { Self → Option (List ℕ) };

    /// How often it failed, up to 2^64 - 1.
    ghost faults: { Self → ℕ };

    /// Reads the next bytes into the prefix of `buf`, and answers how many: at most as many as
    /// `buf` has. 0 for a `buf` that is not empty means that the source has ended.
    ///
    /// `Failed` where the source could not read. It has then counted a fault, and no byte is lost.
    fn read_some(&mut self, buf: &mut [u8]) -> Result<usize, Failed>
        ensures bound { ReadsAtMost result buf.new }
        ensures taken { IfOk result (λ n.
            Consumes (rest self.old) (rest self.new) (take n buf.new)) }
        ensures ended { IfOk result (λ n. n ≡ 0 → 0 < length buf.new → IsAtEnd (rest self.new)) }
        ensures failed { OnErr result (Keeps (rest self.old) (rest self.new)) }
        ensures cause { HasCause result (faults self.old) (faults self.new) };
}
