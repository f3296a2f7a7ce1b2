//! A disk that passes so many calls on, and then fails each.
ghost use Rattle.std.specs.Prelude.{◌≡◌, ◌+◌, ◌-◌, ◌^◌, ◌<◌, ◌≤◌, ◌↔◌, ℕ, List, Some, length, IsTrue, IsErr, IfOk, OnOk, OnErr};
ghost use Rattle.ax_disk.specs.model.Image.{list_of};
ghost use Rattle.ax_faults.specs.Faults.{HasCause, CountsOnce};
ghost use Rattle.ax_disk.specs.model.Calls.{Idles, Writes, Cuts, Syncs, bytes_from};

use crate::{Disk, DiskFailed, Extent};
use ax_faults::FaultCount;

/// Passes the first k calls on to the disk beneath it, each as one call. It fails each later call,
/// counts it, and leaves that disk as it is.
#[derive(Drop)]
pub struct FuseDisk<D: Disk> {
    inner: D,
    calls_remaining: u64,
    refusals: FaultCount,
}

impl<D: Disk> FuseDisk<D> {
    ghost use Rattle.ax_disk.specs.FuseDisk.{inner_of, calls_remaining_of, refusals_of};

    /// A fuse that passes `k` calls on to `disk`.
    pub fn make(disk: D, k: u64) -> FuseDisk<D>
        ensures inner { inner_of result ≡ disk }
        ensures remaining { calls_remaining_of result ≡ k }
        ensures refusals_of { refusals_of result ≡ 0 }
    {
        FuseDisk {
            inner: disk,
            calls_remaining: k,
            refusals: FaultCount::new(),
        }
    }

    /// Gives the disk back.
    pub fn into_inner(self) -> D
        ensures { result ≡ inner_of self }
    {
        let FuseDisk {
            inner,
            calls_remaining: _,
            refusals: _,
        } = self;
        inner
    }
}

/// Takes one of the calls that remain, or fails and counts it.
fn spend(calls_remaining: &mut u64, refusals: &mut FaultCount) -> Result<(), DiskFailed>
    ensures blown { IsErr result ↔ (calls_remaining.old ≡ 0) }
    ensures spent { calls_remaining.new ≡ calls_remaining.old - 1 }
    ensures counts { CountsOnce result refusals.old refusals.new }
    ensures never_falls { refusals.old ≤ refusals.new }
{
    if *calls_remaining == 0 {
        refusals.raise();
        return Err(DiskFailed);
    }
    *calls_remaining -= 1;
    Ok(())
}

impl<D: Disk> Disk for FuseDisk<D> {
    ghost use Rattle.ax_disk.specs.FuseDisk.{inner_of, history_beneath, all_faults, PassesOn};

    ghost faults = { λ fuse. D.Disk.faults fuse.inner + fuse.refusals };

    ghost is_honest = { λ fuse. D.Disk.is_honest fuse.inner };

    ghost store_named = { D.Disk.store_named };

    ghost attached = { λ fuse. D.Disk.attached fuse.inner };

    ghost history = { λ fuse. D.Disk.history fuse.inner };

    ghost remaining = { λ fuse. Some fuse.calls_remaining };

    ghost reads_may_stay = { λ fuse. D.Disk.reads_may_stay fuse.inner };

    ghost is_current = { λ fuse. D.Disk.is_current fuse.inner };

    fn attach(&mut self, name: &str) -> Result<(), DiskFailed>
        ensures attached { OnOk result (D.attached (inner_of self.new) ≡ D.store_named name.now) }
        ensures detached { OnErr result
            (D.attached (inner_of self.new) ≡ D.attached (inner_of self.old)) }
        ensures lists { IsTrue (D.is_honest (inner_of self.old)) → (store : List ℕ)
            → Idles (D.history (inner_of self.old) store) (D.history (inner_of self.new) store) }
        ensures cause { HasCause result
            (all_faults D.faults self.old) (all_faults D.faults self.new) }
        ensures uncounted { OnOk result
            (all_faults D.faults self.new ≡ all_faults D.faults self.old) }
        ensures honest { D.is_honest (inner_of self.new) ≡ D.is_honest (inner_of self.old) }

        // What a fuse adds.
        ensures passes { PassesOn D.faults D.remaining result self.old self.new }
    {
        spend(&mut self.calls_remaining, &mut self.refusals)?;
        self.inner.attach(name)
    }

    fn len(&mut self, ext: Extent) -> Result<u64, DiskFailed>
        ensures length { IsTrue (D.is_honest (inner_of self.old))
            → IfOk result (λ n. n
            ≡ length (list_of ext (history_beneath D.history D.attached self.old).reads)) }
        ensures limit { IfOk result (λ n. n ≤ 2 ^ 62) }
        ensures lists { IsTrue (D.is_honest (inner_of self.old))
            → Idles (history_beneath D.history D.attached self.old)
            (history_beneath D.history D.attached self.new) }
        ensures attached { D.attached (inner_of self.new) ≡ D.attached (inner_of self.old) }
        ensures cause { HasCause result
            (all_faults D.faults self.old) (all_faults D.faults self.new) }
        ensures uncounted { OnOk result
            (all_faults D.faults self.new ≡ all_faults D.faults self.old) }
        ensures honest { D.is_honest (inner_of self.new) ≡ D.is_honest (inner_of self.old) }

        // What a fuse adds.
        ensures passes { PassesOn D.faults D.remaining result self.old self.new }
    {
        spend(&mut self.calls_remaining, &mut self.refusals)?;
        self.inner.len(ext)
    }

    fn read(&mut self, ext: Extent, at: u64, buf: &mut [u8]) -> Result<(), DiskFailed>
        ensures bytes { IsTrue (D.is_honest (inner_of self.old))
            → OnOk result (buf.new
            ≡ bytes_from (list_of ext (history_beneath D.history D.attached self.old).reads)
            at (length buf.old)) }
        ensures lists { IsTrue (D.is_honest (inner_of self.old))
            → Idles (history_beneath D.history D.attached self.old)
            (history_beneath D.history D.attached self.new) }
        ensures attached { D.attached (inner_of self.new) ≡ D.attached (inner_of self.old) }
        ensures cause { HasCause result
            (all_faults D.faults self.old) (all_faults D.faults self.new) }
        ensures uncounted { OnOk result
            (all_faults D.faults self.new ≡ all_faults D.faults self.old) }
        ensures honest { D.is_honest (inner_of self.new) ≡ D.is_honest (inner_of self.old) }

        // What a fuse adds.
        ensures passes { PassesOn D.faults D.remaining result self.old self.new }
    {
        spend(&mut self.calls_remaining, &mut self.refusals)?;
        self.inner.read(ext, at, buf)
    }

    fn write_at(&mut self, ext: Extent, at: u64, bytes: &[u8]) -> Result<(), DiskFailed>
        requires { IsTrue (D.is_honest (inner_of self.old))
            → at ≤ length (list_of ext (history_beneath D.history D.attached self.old).reads) }
        ensures lists { IsTrue (D.is_honest (inner_of self.old))
            → Writes ext at bytes.now result (history_beneath D.history D.attached self.old)
            (history_beneath D.history D.attached self.new) }
        ensures limit { 2 ^ 62 < at + length bytes.now → IsErr result }
        ensures attached { D.attached (inner_of self.new) ≡ D.attached (inner_of self.old) }
        ensures cause { HasCause result
            (all_faults D.faults self.old) (all_faults D.faults self.new) }
        ensures uncounted { OnOk result
            (all_faults D.faults self.new ≡ all_faults D.faults self.old) }
        ensures honest { D.is_honest (inner_of self.new) ≡ D.is_honest (inner_of self.old) }

        // What a fuse adds.
        ensures passes { PassesOn D.faults D.remaining result self.old self.new }
    {
        spend(&mut self.calls_remaining, &mut self.refusals)?;
        self.inner.write_at(ext, at, bytes)
    }

    fn cut(&mut self, ext: Extent, len: u64) -> Result<(), DiskFailed>
        ensures lists { IsTrue (D.is_honest (inner_of self.old))
            → Cuts ext len result (history_beneath D.history D.attached self.old)
            (history_beneath D.history D.attached self.new) }
        ensures attached { D.attached (inner_of self.new) ≡ D.attached (inner_of self.old) }
        ensures cause { HasCause result
            (all_faults D.faults self.old) (all_faults D.faults self.new) }
        ensures uncounted { OnOk result
            (all_faults D.faults self.new ≡ all_faults D.faults self.old) }
        ensures honest { D.is_honest (inner_of self.new) ≡ D.is_honest (inner_of self.old) }

        // What a fuse adds.
        ensures passes { PassesOn D.faults D.remaining result self.old self.new }
    {
        spend(&mut self.calls_remaining, &mut self.refusals)?;
        self.inner.cut(ext, len)
    }

    fn sync(&mut self) -> Result<(), DiskFailed>
        ensures lists { IsTrue (D.is_honest (inner_of self.old))
            → Syncs result (history_beneath D.history D.attached self.old)
            (history_beneath D.history D.attached self.new) }
        ensures attached { D.attached (inner_of self.new) ≡ D.attached (inner_of self.old) }
        ensures cause { HasCause result
            (all_faults D.faults self.old) (all_faults D.faults self.new) }
        ensures uncounted { OnOk result
            (all_faults D.faults self.new ≡ all_faults D.faults self.old) }
        ensures honest { D.is_honest (inner_of self.new) ≡ D.is_honest (inner_of self.old) }

        // What a fuse adds.
        ensures passes { PassesOn D.faults D.remaining result self.old self.new }
    {
        spend(&mut self.calls_remaining, &mut self.refusals)?;
        self.inner.sync()
    }
}
