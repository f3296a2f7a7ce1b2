//! A file that holds what is written to it.
ghost use Rattle.std.specs.Prelude.{true, false, [], ⊤};

use crate::system_file::SystemFile;
use std::fs::TryLockError;
use std::io::{self, ErrorKind};
use std::test::Fail;

/// A file in memory that holds what is written to it. It tells nothing, as a file of the system.
#[derive(Drop)]
pub struct PlainFile {
    pub bytes: Vec<u8>,
}

impl SystemFile for PlainFile {
    ghost is_honest = { λ _. false };

    ghost is_settled = { λ _. false };

    ghost content = { λ _. [] };

    ghost is_working = { λ _. false };

    ghost fails_with = { λ _ _ _. ⊤ };

    ghost is_of = { λ _ _ _. ⊤ };

    ghost is_locked = { λ _. true };

    ghost fails_to_lock = { λ _ _ _. ⊥ };

    fn lock(&mut self) -> Result<(), TryLockError> {
        Ok(())
    }

    fn size(&self) -> io::Result<u64> {
        Ok(self.bytes.len() as u64)
    }

    fn read_piece(&self, buf: &mut [u8], at: u64) -> io::Result<usize> {
        let from = (at as usize).min(self.bytes.len());
        let count = buf.len().min(self.bytes.len() - from);
        buf[..count].copy_from_slice(&self.bytes[from..from + count]);
        Ok(count)
    }

    fn write_whole(&mut self, bytes: &[u8], at: u64) -> io::Result<()> {
        for (index, byte) in bytes.iter().enumerate() {
            match self.bytes.get_mut((at as usize).saturating_add(index)) {
                Some(place) => *place = *byte,
                None => {
                    if self.bytes.push(*byte).is_err() {
                        return Err(ErrorKind::OutOfMemory.into());
                    }
                }
            }
        }
        Ok(())
    }

    fn shorten(&mut self, len: u64) -> io::Result<()> {
        self.bytes.truncate(len as usize);
        Ok(())
    }

    fn sync(&mut self) -> io::Result<()> {
        Ok(())
    }
}

pub fn plain(rt: &impl AllocGlobal, bytes: &[u8]) -> Result<PlainFile, Fail> {
    Ok(PlainFile {
        bytes: Vec::from_slice(rt.alloc(), bytes)?,
    })
}
