//! Files whose syncs, writes and cuts fail: what is unsynced then, and which fault is kept.
ghost use Rattle.std.specs.Prelude.{◌≡◌, true, None};
ghost use Rattle.std.specs.IoError.{error_kind};
ghost use Rattle.std.specs.declared.io.ErrorKind.TheVariants.{NotFound};

use super::fake_file::{FakeFile, fake, fakes};
use crate::counted_files::CountedFiles;
use crate::file_fault::{FileCall, FileFault};
use crate::file_system::FileSystem;
use crate::store_files::StoreFiles;
use ax_disk::{Disk, Extent};
use std::io::{self, ErrorKind};
use std::test::Fail;

/// No files.
#[derive(Drop)]
struct NoFiles {}

impl FileSystem<FakeFile> for NoFiles {
    ghost is_honest = { λ _. true };

    ghost held = { λ _ _ _. None };

    ghost keeps_files = { λ _ _. true };

    ghost fails_to_open = { λ _ _ error. error_kind error ≡ NotFound };

    ghost fails_to_sync = { λ _ _. ⊥ };

    fn open(&mut self, _name: &str, _extent: Extent, _makes: bool) -> io::Result<FakeFile> {
        Err(ErrorKind::NotFound.into())
    }

    fn sync_folder(&mut self, _name: &str) -> io::Result<()> {
        Ok(())
    }
}

#[test]
fn a_file_stays_unsynced_until_its_sync_succeeds(rt: HostRuntime) -> Result<(), Fail> {
    let mut files = StoreFiles::new(fake(&rt, 0, 0)?, fake(&rt, 9, 0)?, fake(&rt, 9, 2)?);
    assert!(rt; files.sync().is_err());
    assert!(rt; files.sync().is_err());
    assert!(rt; files.b.is_unsynced && !files.b.file.is_settled);
    assert!(rt; files.sync().is_ok());
    assert!(rt; files.root.file.is_settled && files.a.file.is_settled && files.b.file.is_settled);
    assert!(rt; files.write(Extent::A, 0, b"x").is_err() && files.a.is_unsynced);
    assert!(rt; files.cut(Extent::B, 4).is_err() && files.b.is_unsynced);
    assert!(rt; files.sync().is_ok() && files.a.file.is_settled && files.b.file.is_settled);
    Ok(())
}

#[test]
fn the_first_fault_is_kept_and_a_failed_sync_ends_all(rt: HostRuntime) -> Result<(), Fail> {
    let mut files = CountedFiles::over(NoFiles {});
    let mut buf = [1; 4];
    assert!(rt; files.read(Extent::A, 0, &mut buf).is_err());
    assert!(rt; matches!(files.first_fault(), Some(FileFault::Detached)));
    assert!(rt; files.keep(Ok(fakes(&rt, 1)?)).is_ok());
    assert!(rt; matches!(files.len(Extent::A), Ok(9)));
    assert!(rt; files.read(Extent::A, 7, &mut buf).is_ok() && buf == [7, 7, 0, 0]);
    assert!(rt; files.sync().is_err() && files.len(Extent::A).is_err());
    assert!(rt; files.keep(Ok(fakes(&rt, 0)?)).is_err());
    assert!(rt; matches!(files.first_fault(), Some(FileFault::Detached)));
    Ok(())
}

#[test]
fn a_failed_change_is_told_with_its_file_and_its_call(rt: HostRuntime) -> Result<(), Fail> {
    let mut files = CountedFiles::over(NoFiles {});
    assert!(rt; files.keep(Ok(fakes(&rt, 0)?)).is_ok() && files.first_fault().is_none());
    assert!(rt; files.sync().is_ok() && files.cut(Extent::A, 9).is_ok());
    assert!(rt; files.cut(Extent::B, 8).is_err());
    assert!(rt;
        matches!(
            files.first_fault(),
            Some(FileFault::Call {
                extent: Extent::B,
                call: FileCall::Cut,
                ..
            })
        )
    );
    Ok(())
}
