//! Reads and writes over files that work, and reads of one that is interrupted.
ghost use Rattle.std.specs.Prelude.{true, false, [], ⊤};

use super::fake_file::fake;
use super::plain_file::plain;
use crate::store_file::fill_from;
use crate::store_files::StoreFiles;
use crate::system_file::SystemFile;
use ax_disk::{Disk, Extent};
use std::fs::TryLockError;
use std::io;
use std::test::Fail;

/// A file that holds nothing and keeps nothing, and on which no call fails.
#[derive(Drop)]
struct SteadyFile {}

impl SystemFile for SteadyFile {
    ghost is_honest = { λ _. false };

    ghost is_settled = { λ _. false };

    ghost content = { λ _. [] };

    ghost is_working = { λ _. true };

    ghost fails_with = { λ _ _ _. ⊥ };

    ghost is_of = { λ _ _ _. ⊤ };

    ghost is_locked = { λ _. true };

    ghost fails_to_lock = { λ _ _ _. ⊥ };

    fn lock(&mut self) -> Result<(), TryLockError> {
        Ok(())
    }

    fn size(&self) -> io::Result<u64> {
        Ok(0)
    }

    fn read_piece(&self, _buf: &mut [u8], _at: u64) -> io::Result<usize> {
        Ok(0)
    }

    fn write_whole(&mut self, _bytes: &[u8], _at: u64) -> io::Result<()> {
        Ok(())
    }

    fn shorten(&mut self, _len: u64) -> io::Result<()> {
        Ok(())
    }

    fn sync(&mut self) -> io::Result<()> {
        Ok(())
    }
}

#[test]
fn only_interruptions_in_a_row_end_a_read(rt: HostRuntime) -> Result<(), Fail> {
    let file = fake(&rt, 3000, 0)?;
    let mut buf = [1; 4000];
    fill_from(&file, 0, &mut buf)?;
    assert!(rt; buf.iter().take(3000).all(|byte| *byte == 7));
    assert!(rt; buf.iter().skip(3000).all(|byte| *byte == 0));
    Ok(())
}

#[test]
fn each_call_is_made_on_its_own_file(rt: HostRuntime) -> Result<(), Fail> {
    let root = plain(&rt, b"root")?;
    let mut files = StoreFiles::new(root, plain(&rt, b"area a")?, plain(&rt, b"area b")?);
    assert!(rt; files.write(Extent::A, 5, b"xyz").is_ok());
    assert!(rt; files.write(Extent::B, 0, b"A").is_ok());
    assert!(rt; files.cut(Extent::Root, 2).is_ok());
    assert!(rt; files.cut(Extent::B, 9).is_ok());
    assert_eq!(rt; files.root.file.bytes.as_slice(), b"ro".as_slice());
    assert_eq!(rt; files.a.file.bytes.as_slice(), b"area xyz".as_slice());
    assert_eq!(rt; files.b.file.bytes.as_slice(), b"Area b".as_slice());
    assert!(rt; matches!(files.len(Extent::Root), Ok(2)));
    assert!(rt; matches!(files.len(Extent::A), Ok(8)));
    assert!(rt; matches!(files.len(Extent::B), Ok(6)));
    let mut buf = [1; 4];
    assert!(rt; files.read(Extent::A, 6, &mut buf).is_ok());
    assert_eq!(rt; &buf, b"yz\0\0");
    assert!(rt; files.read(Extent::B, 0, &mut buf).is_ok());
    assert_eq!(rt; &buf, b"Area");
    Ok(())
}

#[test]
fn nothing_fails_over_files_that_work(rt: HostRuntime) -> Result<(), Fail> {
    let mut files = StoreFiles::new(SteadyFile {}, SteadyFile {}, SteadyFile {});
    assert!(rt; files.write(Extent::Root, 1 << 61, b"x").is_ok());
    assert!(rt; files.write(Extent::A, 1 << 62, b"x").is_err());
    assert!(rt; files.cut(Extent::B, 0).is_ok() && files.sync().is_ok());
    let mut buf = [1; 3];
    assert!(rt; files.read(Extent::A, 5, &mut buf).is_ok() && buf == [0, 0, 0]);
    Ok(())
}
