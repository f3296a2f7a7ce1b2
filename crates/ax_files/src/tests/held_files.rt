//! Opening of the files that a file system holds, all, none or some.
ghost use Rattle.std.specs.Prelude.{◌≡◌, ◌⊎◌, true, false, option_map};
ghost use Rattle.std.specs.IoError.{error_kind};
ghost use Rattle.std.specs.declared.io.ErrorKind.TheVariants.{NotFound};
ghost use Rattle.ax_files.specs.Content.{at_extent};
ghost use Rattle.ax_files.specs.SystemCalls.{SystemCall};

use crate::counted_files::CountedFiles;
use crate::file_fault::{FileFault, RootState};
use crate::file_system::FileSystem;
use crate::opening::open_files;
use crate::system_file::SystemFile;
use ax_disk::{Disk, Extent};
use std::fs::TryLockError;
use std::io::{self, ErrorKind};
use std::test::Fail;

/// A file that tells what it holds. Only its writes and cuts fail.
#[derive(Drop)]
struct HeldFile {
    extent: Extent,
    bytes: &'static [u8],
    is_locked: bool,
}

impl SystemFile for HeldFile {
    ghost is_honest = { λ _. true };

    ghost is_settled = { λ _. true };

    ghost content = { λ file. file.bytes.now };

    ghost is_working = { λ _. false };

    ghost fails_with = { λ _ call _. (call ≡ SystemCall.WriteWhole) ⊎ (call ≡ SystemCall.Shorten) };

    ghost is_of = { λ file _ extent. file.extent ≡ extent };

    ghost is_locked = { λ file. file.is_locked };

    ghost fails_to_lock = { λ _ _ _. ⊥ };

    fn lock(&mut self) -> Result<(), TryLockError> {
        self.is_locked = true;
        Ok(())
    }

    fn size(&self) -> io::Result<u64> {
        Ok(self.bytes.len() as u64)
    }

    fn read_piece(&self, buf: &mut [u8], at: u64) -> io::Result<usize> {
        if buf.is_empty() || at >= self.bytes.len() as u64 {
            return Ok(0);
        }
        buf[0] = self.bytes[at as usize];
        Ok(1)
    }

    fn write_whole(&mut self, _bytes: &[u8], _at: u64) -> io::Result<()> {
        Err(ErrorKind::StorageFull.into())
    }

    fn shorten(&mut self, _len: u64) -> io::Result<()> {
        Err(ErrorKind::StorageFull.into())
    }

    fn sync(&mut self) -> io::Result<()> {
        Ok(())
    }
}

/// The files of a store, of which it tells what they hold. One that is made is empty.
#[derive(Drop)]
struct HeldFiles {
    root: Option<&'static [u8]>,
    a: Option<&'static [u8]>,
    b: Option<&'static [u8]>,
    is_synced: bool,
}

impl FileSystem<HeldFile> for HeldFiles {
    ghost is_honest = { λ _. true };

    ghost held = { λ system _ extent.
        option_map (λ bytes. bytes.now) (at_extent extent system.root system.a system.b) };

    ghost keeps_files = { λ system _. system.is_synced };

    ghost fails_to_open = { λ _ _ error. error_kind error ≡ NotFound };

    ghost fails_to_sync = { λ _ _. ⊥ };

    fn open(&mut self, _name: &str, extent: Extent, makes: bool) -> io::Result<HeldFile> {
        let held = match extent {
            Extent::Root => self.root,
            Extent::A => self.a,
            Extent::B => self.b,
        };
        let bytes = match held {
            Some(bytes) => bytes,
            None if !makes => return Err(ErrorKind::NotFound.into()),
            None => {
                let empty: &'static [u8] = b"";
                match extent {
                    Extent::Root => self.root = Some(empty),
                    Extent::A => self.a = Some(empty),
                    Extent::B => self.b = Some(empty),
                }
                self.is_synced = false;
                empty
            }
        };
        Ok(HeldFile {
            extent,
            bytes,
            is_locked: false,
        })
    }

    fn sync_folder(&mut self, _name: &str) -> io::Result<()> {
        self.is_synced = true;
        Ok(())
    }
}

fn held_files(
    root: Option<&'static [u8]>,
    a: Option<&'static [u8]>,
    b: Option<&'static [u8]>,
) -> HeldFiles {
    HeldFiles {
        root,
        a,
        b,
        is_synced: false,
    }
}

/// A root whose first slot is that of a new store.
const OPEN_ROOT: &[u8] =
    b"\x01\x01\x00\x01\x01\x00\x00\x00\x00\x00\x00\x00AXDB\0\0\0\0\0\0\0\0\0\0\0\0\0\0\0\0E";

#[test]
fn a_store_that_is_held_is_attached(rt: HostRuntime) -> Result<(), Fail> {
    let mut disk = CountedFiles::over(held_files(Some(OPEN_ROOT), Some(b"area a"), Some(b"\0")));
    assert!(rt; disk.attach("s").is_ok());
    assert!(rt; matches!(disk.len(Extent::Root), Ok(33)));
    assert!(rt; matches!(disk.len(Extent::A), Ok(6)));
    assert!(rt; matches!(disk.len(Extent::B), Ok(1)));
    let mut buf = [1; 4];
    assert!(rt; disk.read(Extent::A, 3, &mut buf).is_ok() && buf == *b"a a\0");
    assert!(rt; disk.read(Extent::Root, 12, &mut buf).is_ok() && buf == *b"AXDB");
    Ok(())
}

#[test]
fn where_no_file_is_held_three_are_made(rt: HostRuntime) -> Result<(), Fail> {
    let mut disk = CountedFiles::over(held_files(None, None, None));
    assert!(rt; disk.attach("s").is_ok());
    for extent in [Extent::Root, Extent::A, Extent::B] {
        assert!(rt; matches!(disk.len(extent), Ok(0)));
    }
    let mut files = held_files(None, None, None);
    assert!(rt; open_files(&mut files, "s").is_ok() && files.is_synced);
    assert!(rt; files.root.is_some() && files.a.is_some() && files.b.is_some());
    Ok(())
}

/// Why the files of a store are not opened.
fn fault_of(files: &mut HeldFiles) -> Option<FileFault> {
    match open_files(files, "s") {
        Ok(_) => None,
        Err(fault) => Some(fault),
    }
}

#[test]
fn where_a_held_store_is_refused_nothing_is_made(rt: HostRuntime) -> Result<(), Fail> {
    let mut files = held_files(Some(OPEN_ROOT), Some(b"area a"), None);
    let fault = fault_of(&mut files);
    assert!(rt; matches!(fault, Some(FileFault::Arealess { area: Extent::B })));
    assert!(rt; files.b.is_none() && !files.is_synced);
    assert!(rt; CountedFiles::over(files).attach("s").is_err());

    let mut files = held_files(None, Some(b"area a"), None);
    let fault = fault_of(&mut files);
    assert!(rt;
        matches!(
            fault,
            Some(FileFault::Rootless {
                root: RootState::Absent,
                area: Extent::A
            })
        )
    );
    assert!(rt; files.root.is_none() && files.b.is_none() && !files.is_synced);
    assert!(rt; CountedFiles::over(files).attach("s").is_err());

    let mut files = held_files(Some(&[0; 33]), None, None);
    let fault = fault_of(&mut files);
    assert!(rt; matches!(fault, Some(FileFault::Foreign)));
    assert!(rt; files.a.is_none() && files.b.is_none() && !files.is_synced);
    assert!(rt; CountedFiles::over(files).attach("s").is_err());
    Ok(())
}
