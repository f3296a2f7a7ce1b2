//! A file on which calls fail, and the files of a store of such.
ghost use Rattle.std.specs.Prelude.{◌≡◌, true, false, ⊤};
ghost use Rattle.std.specs.IoError.{error_kind};
ghost use Rattle.std.specs.declared.io.ErrorKind.TheVariants.{Interrupted, StorageFull, Other};
ghost use Rattle.ax_files.specs.SystemCalls.{SystemCall};

use crate::store_files::StoreFiles;
use crate::system_file::SystemFile;
use std::cell::Cell;
use std::fs::TryLockError;
use std::io::{self, ErrorKind};
use std::test::Fail;

/// A file in memory that tells of its state. It gives one byte a read, and interrupts each but every
/// third one; so many of its syncs fail, and each write and each cut.
#[derive(Drop)]
pub struct FakeFile {
    pub bytes: Vec<u8>,
    pub is_settled: bool,
    pub failing_syncs: u32,
    pub reads: Cell<u32>,
}

impl SystemFile for FakeFile {
    ghost is_honest = { λ _. true };

    ghost is_settled = { λ file. file.is_settled };

    ghost content = { λ file. file.bytes.items };

    ghost is_working = { λ _. false };

    ghost fails_with = { λ _ call error. (call ≡ SystemCall.Size → ⊥)
        × (call ≡ SystemCall.ReadPiece → error_kind error ≡ Interrupted)
        × (call ≡ SystemCall.WriteWhole → error_kind error ≡ StorageFull)
        × (call ≡ SystemCall.Shorten → error_kind error ≡ StorageFull)
        × (call ≡ SystemCall.Sync → error_kind error ≡ Other) };

    ghost is_of = { λ _ _ _. ⊤ };

    ghost is_locked = { λ _. true };

    ghost fails_to_lock = { λ _ _ _. ⊥ };

    fn lock(&mut self) -> Result<(), TryLockError> {
        Ok(())
    }

    fn size(&self) -> io::Result<u64> {
        Ok(self.bytes.len() as u64)
    }

    fn read_piece(&self, buf: &mut [u8], at: u64) -> io::Result<usize> {
        let reads = self.reads.get();
        self.reads.set(reads.wrapping_add(1));
        if reads % 3 != 2 {
            return Err(ErrorKind::Interrupted.into());
        }
        if buf.is_empty() || at >= self.bytes.len() as u64 {
            return Ok(0);
        }
        buf[0] = self.bytes[at as usize];
        Ok(1)
    }

    fn write_whole(&mut self, _bytes: &[u8], _at: u64) -> io::Result<()> {
        self.is_settled = false;
        Err(ErrorKind::StorageFull.into())
    }

    fn shorten(&mut self, _len: u64) -> io::Result<()> {
        self.is_settled = false;
        Err(ErrorKind::StorageFull.into())
    }

    fn sync(&mut self) -> io::Result<()> {
        if self.failing_syncs > 0 {
            self.failing_syncs -= 1;
            return Err(ErrorKind::Other.into());
        }
        self.is_settled = true;
        Ok(())
    }
}

pub fn fake(rt: &impl AllocGlobal, len: usize, failing_syncs: u32) -> Result<FakeFile, Fail> {
    Ok(FakeFile {
        bytes: vec![in rt.alloc(); 7; len]?,
        is_settled: false,
        failing_syncs,
        reads: Cell::new(0),
    })
}

pub fn fakes(rt: &impl AllocGlobal, failing_syncs: u32) -> Result<StoreFiles<FakeFile>, Fail> {
    let root = fake(rt, 0, 0)?;
    let a = fake(rt, 9, 0)?;
    Ok(StoreFiles::new(root, a, fake(rt, 9, failing_syncs)?))
}
