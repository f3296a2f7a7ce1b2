//! What opens the files of stores.
ghost use Rattle.std.specs.Prelude.{◌≡◌, ◌≢◌, ◌++◌, ℕ, Bool, true, false, List, [], Option, None, IsSome, IfOk, IfErr, OnOk, IsTrue, ⊤, codes, string_bytes, unwrap_or};
ghost use Rattle.std.specs.IoError.{error_kind};
ghost use Rattle.std.specs.declared.io.Error.{Error};
ghost use Rattle.std.specs.declared.io.ErrorKind.TheVariants.{NotFound};
ghost use Rattle.ax_disk.specs.declared.extent.Extent.{Extent};
ghost use Rattle.ax_files.specs.Lines.{ending_text};

use crate::file_fault::ending;
use crate::system_file::SystemFile;
use ax_disk::Extent;
use std::fs::{File, OpenOptions};
use std::io;
use std::path::Path;

/// What opens the files of stores, by the names of the stores.
///
/// It tells of the files that there are only where it is honest: the one of the host is not. Of a store
/// that tells, no other program changes the files while they are opened.
pub trait FileSystem<F: SystemFile>: Drop {
    /// Whether it tells which files it has, and what they hold.
    ghost is_honest: { Self → Bool };

    /// What the file of that extent of the store of that name holds, where there is one.
    ghost held: { Self → List ℕ → Extent → Option (List ℕ) };

    /// Whether a crash keeps the files of the store of that name that are there.
    ghost keeps_files: { Self → List ℕ → Bool };

    /// With which errors the file of that extent of the store of that name fails to open.
    ghost fails_to_open: { List ℕ → Extent → Error → Type 0 };

    /// With which errors the folder of the store of that name fails to open or to sync.
    ghost fails_to_sync: { List ℕ → Error → Type 0 };

    /// Opens a file of a store to read and write it; where there is none it is made, or the call fails.
    fn open(&mut self, name: &str, extent: Extent, makes: bool) -> io::Result<F>
        ensures of { IfOk result (λ file. F.is_of file name.now extent) }
        ensures error { IfErr result (λ error. fails_to_open name.now extent error) }
        ensures untouched { makes ≡ false → self.new ≡ self.old }
        ensures opened { IsTrue (is_honest self.old) → IfOk result (λ file. IsTrue (F.is_honest file)
            × (F.content file ≡ unwrap_or (held self.old name.now extent) [])) }
        ensures there { IsTrue (is_honest self.old) → makes ≡ false
            → IfOk result (λ _. IsSome (held self.old name.now extent)) }
        ensures absent { IsTrue (is_honest self.old) → IfErr result (λ error. error_kind error ≡ NotFound
            → held self.old name.now extent ≡ None) }
        ensures others { IsTrue (is_honest self.old) → IsTrue (is_honest self.new)
            × ((other : Extent) → other ≢ extent → held self.new name.now other ≡ held self.old name.now other) };

    /// Makes a crash keep the files of a store that are there.
    fn sync_folder(&mut self, name: &str) -> io::Result<()>
        ensures kept { OnOk result (IsTrue (keeps_files self.new name.now)) }
        ensures error { IfErr result (λ error. fails_to_sync name.now error) };
}

/// The file system of the host.
#[derive(Drop)]
pub struct HostFiles {
    rt: HostRuntime,
}

impl HostFiles {
    pub fn new(rt: HostRuntime) -> HostFiles {
        HostFiles { rt }
    }
}

impl FileSystem<File> for HostFiles {
    ghost is_honest = { λ _. false };

    ghost held = { λ _ _ _. None };

    ghost keeps_files = { λ _ _. true };

    ghost fails_to_open = { λ _ _ _. ⊤ };

    ghost fails_to_sync = { λ _ _. ⊤ };

    fn open(&mut self, name: &str, extent: Extent, makes: bool) -> io::Result<File> {
        let path = file_path(&self.rt, name, extent)?;
        OpenOptions::new()
            .read(true)
            .write(true)
            .create(makes)
            .open(&self.rt, path.as_str())
    }

    fn sync_folder(&mut self, name: &str) -> io::Result<()> {
        let root = file_path(&self.rt, name, Extent::Root)?;
        let folder = match Path::new(root.as_str()).parent() {
            Some(folder) if !folder.as_str().is_empty() => folder,
            _ => Path::new("."),
        };
        File::open(&self.rt, folder)?.sync_all()
    }
}

/// The name of a file: that of its store, a dot and its ending.
fn file_path(rt: &HostRuntime, name: &str, extent: Extent) -> io::Result<String>
    ensures { IfOk result (λ path. string_bytes path ≡ name.now ++ codes "." ++ ending_text extent) }
{
    let ending = ending(extent);
    Ok(format!(in rt.alloc(); "{name}.{ending}")?)
}
