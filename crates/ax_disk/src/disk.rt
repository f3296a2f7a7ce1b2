//! A disk as a store sees it: what reads give, what a crash may leave, and how often it has failed.
ghost use Rattle.std.specs.Prelude.{◌≡◌, ◌+◌, ◌^◌, ◌<◌, ◌≤◌, ℕ, List, Bool, Option, Some, None, length, IsTrue, IsErr, IfOk, OnOk, OnErr};
ghost use Rattle.ax_disk.specs.model.Image.{list_of};
ghost use Rattle.ax_disk.specs.model.Pending.{MayLeave};
ghost use Rattle.ax_disk.specs.model.Moments.{History, IsCurrent};
ghost use Rattle.ax_faults.specs.Faults.{HasCause};
ghost use Rattle.ax_disk.specs.CallLimit.{one_call_less};
ghost use Rattle.ax_disk.specs.model.Calls.{Idles, Writes, Cuts, Syncs, bytes_from};

use crate::Extent;

/// The disk failed a call. Its count of faults has risen.
#[derive(Clone, Copy, Debug, PartialEq, Eq)]
pub struct DiskFailed;

/// A disk with the lists of stores, by name. Calls act on the lists of the store attached.
///
/// What it tells of lists is told only where it is honest: a disk that cannot vouch for what is
/// below it is not, and no clause then speaks of any content. Nobody but the holder of the disk
/// changes its lists.
pub trait Disk {
    /// How often a call has failed, up to the last value of a `u64`. A call that succeeds leaves it as it is.
    ghost faults: { Self → ℕ };

    /// Whether it tells of its lists.
    ghost is_honest: { Self → Bool };

    /// The store that a name stands for. Two names may stand for one store, as all do on a disk
    /// that holds a single one.
    ghost store_named: { List ℕ → List ℕ };

    /// The store attached.
    ghost attached: { Self → List ℕ };

    /// What reads of a store's lists give, what a crash may leave of them, and what a crash at
    /// earlier moments might have left.
    ghost history: { Self → List ℕ → History };

    /// How many calls may still succeed, where the disk has such a limit: each call takes one.
    ghost remaining: { Self → Option ℕ } = { λ _. None };

    /// Attaches the store of that name: later calls act on its lists. It changes no list of any
    /// store.
    fn attach(&mut self, name: &str) -> Result<(), DiskFailed>
        ensures attached { OnOk result (attached self.new ≡ store_named name.now) }
        ensures detached { OnErr result (attached self.new ≡ attached self.old) }
        ensures lists { IsTrue (is_honest self.old) → (store : List ℕ)
            → Idles (history self.old store) (history self.new store) }
        ensures cause { HasCause result (faults self.old) (faults self.new) }
        ensures uncounted { OnOk result (faults self.new ≡ faults self.old) }
        ensures honest { is_honest self.new ≡ is_honest self.old }
        ensures spent { remaining self.new ≡ one_call_less (remaining self.old) }
        ensures stopped { remaining self.old ≡ Some 0 → IsErr result };

    /// The length of a list in bytes. One of more than 2^62 bytes is a failure.
    fn len(&mut self, ext: Extent) -> Result<u64, DiskFailed>
        ensures length { IsTrue (is_honest self.old)
            → IfOk result (λ n. n
            ≡ length (list_of ext (history self.old (attached self.old)).reads)) }
        ensures limit { IfOk result (λ n. n ≤ 2 ^ 62) }
        ensures lists { IsTrue (is_honest self.old)
            → Idles (history self.old (attached self.old)) (history self.new (attached self.new)) }
        ensures attached { attached self.new ≡ attached self.old }
        ensures cause { HasCause result (faults self.old) (faults self.new) }
        ensures uncounted { OnOk result (faults self.new ≡ faults self.old) }
        ensures honest { is_honest self.new ≡ is_honest self.old }
        ensures spent { remaining self.new ≡ one_call_less (remaining self.old) }
        ensures stopped { remaining self.old ≡ Some 0 → IsErr result };

    /// Fills `buf` with the bytes at `at`. An offset past the end reads as 0, which is no failure.
    /// After a failure `buf` may hold anything.
    fn read(&mut self, ext: Extent, at: u64, buf: &mut [u8]) -> Result<(), DiskFailed>
        ensures bytes { IsTrue (is_honest self.old)
            → OnOk result (buf.new
            ≡ bytes_from (list_of ext (history self.old (attached self.old)).reads)
            at (length buf.old)) }
        ensures lists { IsTrue (is_honest self.old)
            → Idles (history self.old (attached self.old)) (history self.new (attached self.new)) }
        ensures attached { attached self.new ≡ attached self.old }
        ensures cause { HasCause result (faults self.old) (faults self.new) }
        ensures uncounted { OnOk result (faults self.new ≡ faults self.old) }
        ensures honest { is_honest self.new ≡ is_honest self.old }
        ensures spent { remaining self.new ≡ one_call_less (remaining self.old) }
        ensures stopped { remaining self.old ≡ Some 0 → IsErr result };

    /// Writes over what is there, and past the end. `at` is at most the list's length. A write whose end would pass 2^62 fails.
    fn write_at(&mut self, ext: Extent, at: u64, bytes: &[u8]) -> Result<(), DiskFailed>
        requires { IsTrue (is_honest self.old)
            → at ≤ length (list_of ext (history self.old (attached self.old)).reads) }
        ensures lists { IsTrue (is_honest self.old)
            → Writes ext at bytes.now result (history self.old (attached self.old))
            (history self.new (attached self.new)) }
        ensures limit { 2 ^ 62 < at + length bytes.now → IsErr result }
        ensures attached { attached self.new ≡ attached self.old }
        ensures cause { HasCause result (faults self.old) (faults self.new) }
        ensures uncounted { OnOk result (faults self.new ≡ faults self.old) }
        ensures honest { is_honest self.new ≡ is_honest self.old }
        ensures spent { remaining self.new ≡ one_call_less (remaining self.old) }
        ensures stopped { remaining self.old ≡ Some 0 → IsErr result };

    /// Shortens a list to `len` bytes. It does nothing to a shorter list.
    fn cut(&mut self, ext: Extent, len: u64) -> Result<(), DiskFailed>
        ensures lists { IsTrue (is_honest self.old)
            → Cuts ext len result (history self.old (attached self.old))
            (history self.new (attached self.new)) }
        ensures attached { attached self.new ≡ attached self.old }
        ensures cause { HasCause result (faults self.old) (faults self.new) }
        ensures uncounted { OnOk result (faults self.new ≡ faults self.old) }
        ensures honest { is_honest self.new ≡ is_honest self.old }
        ensures spent { remaining self.new ≡ one_call_less (remaining self.old) }
        ensures stopped { remaining self.old ≡ Some 0 → IsErr result };

    /// Syncs all three lists. After it a crash leaves what a read gives.
    fn sync(&mut self) -> Result<(), DiskFailed>
        ensures lists { IsTrue (is_honest self.old)
            → Syncs result (history self.old (attached self.old))
            (history self.new (attached self.new)) }
        ensures attached { attached self.new ≡ attached self.old }
        ensures cause { HasCause result (faults self.old) (faults self.new) }
        ensures uncounted { OnOk result (faults self.new ≡ faults self.old) }
        ensures honest { is_honest self.new ≡ is_honest self.old }
        ensures spent { remaining self.new ≡ one_call_less (remaining self.old) }
        ensures stopped { remaining self.old ≡ Some 0 → IsErr result };

    /// An image as read is one of those that a crash now may leave.
    ghost reads_may_stay: { (disk : Self) (store : List ℕ) → IsTrue (is_honest disk)
        → MayLeave (history disk store).unsynced (history disk store).reads };

    /// The images of the current moment are those that a crash now may leave.
    ghost is_current: { (disk : Self) (store : List ℕ) → IsTrue (is_honest disk)
        → IsCurrent (history disk store) };
}
