//! One file of a store, and whether it has to be synced.
ghost use Rattle.std.specs.Prelude.{◌≡◌, ◌≤◌, ◌<◌, ◌+◌, ◌^◌, ◌↔◌, true, false, length, take, drop, IsTrue, IsOk, IsErr, OnOk, IfOk, IfErr, ◌⊎◌};
ghost use Rattle.std.specs.IoError.{error_kind};
ghost use Rattle.std.specs.Result.{IsErrAnd};
ghost use Rattle.ax_disk.specs.model.Calls.{overwritten, bytes_from};
ghost use Rattle.ax_files.specs.SystemCalls.{SystemCall};

use crate::system_file::SystemFile;
use std::io::{self, ErrorKind};

/// The system takes no offset above this one, and no file is longer.
const LAST_OFFSET: u64 = i64::MAX as u64;

/// How often in a row a read is made that the system interrupts.
const TURNS: u32 = 1000;

/// A file of a store, and whether it counts as written or cut since it was last synced.
#[derive(Drop)]
pub(crate) struct StoreFile<F: SystemFile> {
    pub file: F,
    pub is_unsynced: bool,
    /// A file that does not count as unsynced is settled.
    pub ghost noted: { IsTrue (F.is_honest file) → is_unsynced ≡ false → IsTrue (F.is_settled file) },
}

impl<F: SystemFile> StoreFile<F> {
    /// An open file. It counts as unsynced, since what an earlier program left of it may be.
    pub fn new(file: F) -> StoreFile<F>
        ensures file { result.file ≡ file }
        ensures unsynced { result.is_unsynced ≡ true }
    {
        StoreFile {
            file,
            is_unsynced: true,
        }
    }

    /// The length in bytes.
    pub fn len(&self) -> io::Result<u64>
        ensures len { IsTrue (F.is_honest self.now.file)
            → IfOk result (λ len. len ≡ length (F.content self.now.file)) }
        ensures error { IfErr result (λ error. F.fails_with self.now.file SystemCall.Size error) }
        ensures works { IsTrue (F.is_working self.now.file) → IsOk result }
    {
        self.file.size()
    }

    /// Fills `buf` with the bytes at `at`, and with 0 past the end of the file.
    pub fn read(&self, at: u64, buf: &mut [u8]) -> io::Result<()>
        ensures bytes { IsTrue (F.is_honest self.now.file) → length (F.content self.now.file) < 2 ^ 63
            → OnOk result (buf.new ≡ bytes_from (F.content self.now.file) at (length buf.old)) }
        ensures error { IfErr result (λ error. F.fails_with self.now.file SystemCall.ReadPiece error) }
        ensures works { IsTrue (F.is_working self.now.file) → IsOk result }
    {
        fill_from(&self.file, at, buf)
    }

    /// Writes all the bytes at `at`. Whatever comes of it, the file counts as unsynced from here on.
    pub fn write(&mut self, at: u64, bytes: &[u8]) -> io::Result<()>
        ensures unsynced { self.new.is_unsynced ≡ true }
        ensures written { IsTrue (F.is_honest self.old.file) → at ≤ length (F.content self.old.file)
            → OnOk result (F.content self.new.file ≡ overwritten (F.content self.old.file) at bytes.now) }
        ensures error { IfErr result (λ error. F.fails_with self.old.file SystemCall.WriteWhole error) }
        ensures works { IsTrue (F.is_working self.old.file) → IsOk result }
        ensures working { F.is_working self.new.file ≡ F.is_working self.old.file }
        ensures honest { OnOk result (F.is_honest self.new.file ≡ F.is_honest self.old.file) }
    {
        self.is_unsynced = true;
        self.file.write_whole(bytes, at)
    }

    /// Shortens the file to `len` bytes, where it is longer. Whatever comes of it, the file counts as
    /// unsynced from here on.
    pub fn cut(&mut self, len: u64) -> io::Result<()>
        ensures unsynced { self.new.is_unsynced ≡ true }
        ensures shortened { IsTrue (F.is_honest self.old.file)
            → OnOk result (F.content self.new.file ≡ take len (F.content self.old.file)) }
        ensures error { IfErr result (λ error. F.fails_with self.old.file SystemCall.Size error
            ⊎ F.fails_with self.old.file SystemCall.Shorten error) }
        ensures works { IsTrue (F.is_working self.old.file) → IsOk result }
        ensures working { F.is_working self.new.file ≡ F.is_working self.old.file }
        ensures honest { OnOk result (F.is_honest self.new.file ≡ F.is_honest self.old.file) }
    {
        self.is_unsynced = true;
        if self.file.size()? <= len {
            return Ok(());
        }
        self.file.shorten(len)
    }

    /// Syncs the file where it counts as unsynced. After an error it counts as unsynced still.
    pub fn sync(&mut self) -> io::Result<()>
        ensures synced { IsOk result ↔ (self.new.is_unsynced ≡ false) }
        ensures asked { IsErr result → self.old.is_unsynced ≡ true }
        ensures settled { IsTrue (F.is_honest self.old.file)
            → OnOk result (IsTrue (F.is_settled self.new.file)) }
        ensures content { IsTrue (F.is_honest self.old.file)
            → F.content self.new.file ≡ F.content self.old.file }
        ensures error { IfErr result (λ error. F.fails_with self.old.file SystemCall.Sync error) }
        ensures works { IsTrue (F.is_working self.old.file) → IsOk result }
        ensures working { F.is_working self.new.file ≡ F.is_working self.old.file }
        ensures honest { OnOk result (F.is_honest self.new.file ≡ F.is_honest self.old.file) }
    {
        if !self.is_unsynced {
            return Ok(());
        }
        self.file.sync()?;
        self.is_unsynced = false;
        Ok(())
    }
}

/// Fills `buf` with the bytes at `at`, and with 0 past the end of the file.
pub(crate) fn fill_from<F: SystemFile>(file: &F, at: u64, buf: &mut [u8]) -> io::Result<()>
    ensures bytes { IsTrue (F.is_honest file.now) → length (F.content file.now) < 2 ^ 63
        → OnOk result (buf.new ≡ bytes_from (F.content file.now) at (length buf.old)) }
    ensures error { IfErr result (λ error. F.fails_with file.now SystemCall.ReadPiece error) }
    ensures works { IsTrue (F.is_working file.now) → IsOk result }
{
    let reachable = LAST_OFFSET.saturating_sub(at).min(buf.len() as u64) as usize;
    let filled = read_up_to_end(file, at, &mut buf[..reachable])?;
    buf[filled..].fill(0);
    Ok(())
}

/// Reads at `at` until `buf` is full or the file ends, and answers how many bytes were read.
fn read_up_to_end<F: SystemFile>(file: &F, at: u64, buf: &mut [u8]) -> io::Result<usize>
    requires { at + length buf.old < 2 ^ 64 }
    ensures bound { IfOk result (λ filled. filled ≤ length buf.old) }
    ensures read { IsTrue (F.is_honest file.now)
        → IfOk result (λ filled. take filled buf.new ≡ take filled (drop at (F.content file.now))) }
    ensures ended { IsTrue (F.is_honest file.now)
        → IfOk result (λ filled. filled < length buf.old → length (F.content file.now) ≤ at + filled) }
    ensures error { IfErr result (λ error. F.fails_with file.now SystemCall.ReadPiece error) }
    ensures works { IsTrue (F.is_working file.now) → IsOk result }
{
    let mut filled = 0;
    while filled < buf.len() {
        let count = read_uninterrupted(file, at + filled as u64, &mut buf[filled..])?;
        if count == 0 {
            break;
        }
        filled += count;
    }
    Ok(filled)
}

/// Reads a piece at `at`; a read that the system interrupts is made again, so often in a row at most.
fn read_uninterrupted<F: SystemFile>(file: &F, at: u64, buf: &mut [u8]) -> io::Result<usize>
    ensures bound { IfOk result (λ count. count ≤ length buf.old) }
    ensures piece { IsTrue (F.is_honest file.now)
        → IfOk result (λ count. take count buf.new ≡ take count (drop at (F.content file.now))) }
    ensures end { IsTrue (F.is_honest file.now) → 0 < length buf.old
        → IfOk result (λ count. count ≡ 0 → length (F.content file.now) ≤ at) }
    ensures error { IfErr result (λ error. F.fails_with file.now SystemCall.ReadPiece error) }
    ensures works { IsTrue (F.is_working file.now) → IsOk result }
{
    let mut outcome = file.read_piece(buf, at);
    for _ in 1..TURNS {
        if !is_interrupted(&outcome) {
            return outcome;
        }
        outcome = file.read_piece(buf, at);
    }
    outcome
}

/// Whether the system interrupted the call.
fn is_interrupted(outcome: &io::Result<usize>) -> bool
    ensures { IsTrue result ↔ IsErrAnd outcome.now (λ error. error_kind error ≡ ErrorKind.Interrupted) }
{
    match outcome {
        Ok(_) => false,
        Err(error) => error.kind() == ErrorKind::Interrupted,
    }
}
