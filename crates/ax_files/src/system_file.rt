//! A file as the system gives it.
ghost use Rattle.std.specs.Prelude.{◌≡◌, ◌≤◌, ◌<◌, ℕ, Bool, true, false, List, [], length, take, drop, IsOk, OnOk, IfOk, IfErr, IsTrue, ⊤};
ghost use Rattle.std.specs.Io.{ReadsAtMost};
ghost use Rattle.std.specs.declared.fs.TryLockError.{TryLockError};
ghost use Rattle.std.specs.declared.io.Error.{Error};
ghost use Rattle.ax_disk.specs.declared.extent.Extent.{Extent};
ghost use Rattle.ax_disk.specs.model.Calls.{overwritten};
ghost use Rattle.ax_files.specs.SystemCalls.{SystemCall};

use std::fs::{File, TryLockError};
use std::io;
use std::os::unix::fs::FileExt;

/// An open file. What it tells of its state and of what it holds it tells only where it is honest: a
/// file of the system is not, since nothing is known of what is below it.
pub trait SystemFile: Drop {
    /// Whether it tells of its state.
    ghost is_honest: { Self → Bool };

    /// Whether a crash now leaves what reads give.
    ghost is_settled: { Self → Bool };

    /// What it holds.
    ghost content: { Self → List ℕ };

    /// Whether the system does what it is asked: then no call on the file fails.
    ghost is_working: { Self → Bool };

    /// With which errors such a call on it, as it is, may fail. A file of the system leaves that open.
    ghost fails_with: { Self → SystemCall → Error → Type 0 };

    /// Whether it is the file of that extent of the store of that name.
    ghost is_of: { Self → List ℕ → Extent → Type 0 };

    /// Whether it is locked: then no other program of this kind opens it.
    ghost is_locked: { Self → Bool };

    /// With which errors the file of that extent of the store of that name fails to lock.
    ghost fails_to_lock: { List ℕ → Extent → TryLockError → Type 0 };

    /// Locks the file for this program alone, without waiting. Until it has, another program may change
    /// what a file holds that is not honest.
    fn lock(&mut self) -> Result<(), TryLockError>
        ensures locked { OnOk result (IsTrue (is_locked self.new)) }
        ensures of { (name : List ℕ) → (extent : Extent) → is_of self.old name extent → is_of self.new name extent }
        ensures alone { IsTrue (is_honest self.old)
            → OnOk result (IsTrue (is_honest self.new) × (content self.new ≡ content self.old)) }
        ensures error { (name : List ℕ) → (extent : Extent) → is_of self.old name extent
            → IfErr result (λ error. fails_to_lock name extent error) };

    /// The length in bytes.
    fn size(&self) -> io::Result<u64>
        ensures length { IsTrue (is_honest self.now)
            → IfOk result (λ size. size ≡ length (content self.now)) }
        ensures error { IfErr result (λ error. fails_with self.now SystemCall.Size error) }
        ensures works { IsTrue (is_working self.now) → IsOk result };

    /// Reads bytes at `at` into the front of `buf`, and answers how many: 0 at the end of the file.
    fn read_piece(&self, buf: &mut [u8], at: u64) -> io::Result<usize>
        ensures bound { ReadsAtMost result buf.new }
        ensures piece { IsTrue (is_honest self.now)
            → IfOk result (λ count. take count buf.new ≡ take count (drop at (content self.now))) }
        ensures end { IsTrue (is_honest self.now) → 0 < length buf.old
            → IfOk result (λ count. count ≡ 0 → length (content self.now) ≤ at) }
        ensures error { IfErr result (λ error. fails_with self.now SystemCall.ReadPiece error) }
        ensures works { IsTrue (is_working self.now) → IsOk result };

    /// Writes all the bytes at `at`.
    fn write_whole(&mut self, bytes: &[u8], at: u64) -> io::Result<()>
        ensures written { IsTrue (is_honest self.old) → at ≤ length (content self.old)
            → OnOk result (content self.new ≡ overwritten (content self.old) at bytes.now) }
        ensures error { IfErr result (λ error. fails_with self.old SystemCall.WriteWhole error) }
        ensures works { IsTrue (is_working self.old) → IsOk result }
        ensures working { is_working self.new ≡ is_working self.old }
        ensures honest { OnOk result (is_honest self.new ≡ is_honest self.old) };

    /// Makes the file, which is longer, `len` bytes long.
    fn shorten(&mut self, len: u64) -> io::Result<()>
        ensures shortened { IsTrue (is_honest self.old) → len ≤ length (content self.old)
            → OnOk result (content self.new ≡ take len (content self.old)) }
        ensures error { IfErr result (λ error. fails_with self.old SystemCall.Shorten error) }
        ensures works { IsTrue (is_working self.old) → IsOk result }
        ensures working { is_working self.new ≡ is_working self.old }
        ensures honest { OnOk result (is_honest self.new ≡ is_honest self.old) };

    /// Makes a crash leave what reads give.
    fn sync(&mut self) -> io::Result<()>
        ensures settled { IsTrue (is_honest self.old)
            → OnOk result (IsTrue (is_settled self.new)) }
        ensures content { IsTrue (is_honest self.old) → content self.new ≡ content self.old }
        ensures error { IfErr result (λ error. fails_with self.old SystemCall.Sync error) }
        ensures works { IsTrue (is_working self.old) → IsOk result }
        ensures working { is_working self.new ≡ is_working self.old }
        ensures honest { OnOk result (is_honest self.new ≡ is_honest self.old) };
}

impl SystemFile for File {
    ghost is_honest = { λ _. false };

    ghost is_settled = { λ _. false };

    ghost content = { λ _. [] };

    ghost is_working = { λ _. false };

    ghost fails_with = { λ _ _ _. ⊤ };

    ghost is_of = { λ _ _ _. ⊤ };

    ghost is_locked = { λ _. true };

    ghost fails_to_lock = { λ _ _ _. ⊤ };

    fn lock(&mut self) -> Result<(), TryLockError> {
        self.try_lock()
    }

    fn size(&self) -> io::Result<u64> {
        Ok(self.metadata()?.len())
    }

    fn read_piece(&self, buf: &mut [u8], at: u64) -> io::Result<usize> {
        self.read_at(buf, at)
    }

    fn write_whole(&mut self, bytes: &[u8], at: u64) -> io::Result<()> {
        self.write_all_at(bytes, at)
    }

    fn shorten(&mut self, len: u64) -> io::Result<()> {
        self.set_len(len)
    }

    fn sync(&mut self) -> io::Result<()> {
        self.sync_data()
    }
}
