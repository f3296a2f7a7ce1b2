//! The three files of a store: where it writes, cuts and syncs.
ghost use Rattle.std.specs.Prelude.{◌≡◌, ◌≢◌, ◌≤◌, ◌<◌, ◌+◌, ◌^◌, ◌↔◌, ◌⊎◌, false, length, take, IsTrue, IsOk, OnOk, IfOk, IfErr, Err};
ghost use Rattle.ax_disk.specs.model.Calls.{overwritten, bytes_from};
ghost use Rattle.ax_files.specs.Content.{at_extent};
ghost use Rattle.ax_files.specs.Faults.{IsOfCall, IsOfSomeCall, IsOfMarked, HasItsError};
ghost use Rattle.ax_files.specs.Marks.{marks, marked, none_marked, all_marked, first_marked};

use crate::file_fault::{FileCall, FileFault};
use crate::store_file::StoreFile;
use crate::system_file::SystemFile;
use ax_disk::Extent;
use std::io;

/// The most bytes that a file may have.
const MOST_BYTES: u64 = 1 << 62;

/// The files of a store.
#[derive(Drop)]
pub(crate) struct StoreFiles<F: SystemFile> {
    pub root: StoreFile<F>,
    pub a: StoreFile<F>,
    pub b: StoreFile<F>,
}

impl<F: SystemFile> StoreFiles<F> {
    /// Files that are open. All count as unsynced.
    pub fn new(root: F, a: F, b: F) -> StoreFiles<F>
        ensures unsynced { marks result.root.is_unsynced result.a.is_unsynced result.b.is_unsynced
            ≡ all_marked }
        ensures root { result.root.file ≡ root }
        ensures a { result.a.file ≡ a }
        ensures b { result.b.file ≡ b }
    {
        StoreFiles {
            root: StoreFile::new(root),
            a: StoreFile::new(a),
            b: StoreFile::new(b),
        }
    }

    /// The length of a file, which is refused where it is above 2^62.
    pub fn len(&self, extent: Extent) -> Result<u64, FileFault>
        ensures limit { IfOk result (λ len. len ≤ 2 ^ 62) }
        ensures length { IsTrue (F.is_honest (at_extent extent self.now.root.file self.now.a.file self.now.b.file))
            → IfOk result (λ len. len
            ≡ length (F.content (at_extent extent self.now.root.file self.now.a.file self.now.b.file))) }
        ensures fault { IfErr result (λ fault. IsOfCall extent FileCall.Length fault ⊎ (fault ≡ FileFault.Bound extent)) }
        ensures error { IfErr result (λ fault. HasItsError
            (λ extent. F.fails_with (at_extent extent self.now.root.file self.now.a.file self.now.b.file)) fault) }
        ensures bound { IsTrue (F.is_honest (at_extent extent self.now.root.file self.now.a.file self.now.b.file))
            → result ≡ Err (FileFault.Bound extent)
            → 2 ^ 62 < length (F.content (at_extent extent self.now.root.file self.now.a.file self.now.b.file)) }
        ensures works { IsTrue (F.is_working (at_extent extent self.now.root.file self.now.a.file self.now.b.file))
            → IfErr result (λ fault. fault ≡ FileFault.Bound extent) }
    {
        let len = named(extent, FileCall::Length, self.file(extent).len())?;
        if len > MOST_BYTES {
            return Err(FileFault::Bound { extent });
        }
        Ok(len)
    }

    /// Fills `buf` with the bytes at `at`, and with 0 past the end of the file.
    pub fn read(&self, extent: Extent, at: u64, buf: &mut [u8]) -> Result<(), FileFault>
        ensures bytes { IsTrue (F.is_honest (at_extent extent self.now.root.file self.now.a.file self.now.b.file))
            → length (F.content (at_extent extent self.now.root.file self.now.a.file self.now.b.file)) < 2 ^ 63
            → OnOk result (buf.new
            ≡ bytes_from (F.content (at_extent extent self.now.root.file self.now.a.file self.now.b.file))
            at (length buf.old)) }
        ensures fault { IfErr result (λ fault. IsOfCall extent FileCall.Read fault) }
        ensures error { IfErr result (λ fault. HasItsError
            (λ extent. F.fails_with (at_extent extent self.now.root.file self.now.a.file self.now.b.file)) fault) }
        ensures works { IsTrue (F.is_working (at_extent extent self.now.root.file self.now.a.file self.now.b.file))
            → IsOk result }
    {
        named(extent, FileCall::Read, self.file(extent).read(at, buf))
    }

    /// Writes all the bytes at `at`. An end above 2^62 is refused, with all as it was. Else the file
    /// counts as unsynced from here on, whatever comes of it.
    pub fn write(&mut self, extent: Extent, at: u64, bytes: &[u8]) -> Result<(), FileFault>
        ensures limit { (result ≡ Err (FileFault.Bound extent)) ↔ (2 ^ 62 < at + length bytes.now) }
        ensures refused { 2 ^ 62 < at + length bytes.now → self.new ≡ self.old }
        ensures works { IsTrue (F.is_working (at_extent extent self.old.root.file self.old.a.file self.old.b.file))
            → IfErr result (λ fault. fault ≡ FileFault.Bound extent) }
        ensures unsynced { at + length bytes.now ≤ 2 ^ 62
            → marks self.new.root.is_unsynced self.new.a.is_unsynced self.new.b.is_unsynced
            ≡ marked extent (marks self.old.root.is_unsynced self.old.a.is_unsynced self.old.b.is_unsynced) }
        ensures written { IsTrue (F.is_honest (at_extent extent self.old.root.file self.old.a.file self.old.b.file))
            → at ≤ length (F.content (at_extent extent self.old.root.file self.old.a.file self.old.b.file))
            → OnOk result (F.content (at_extent extent self.new.root.file self.new.a.file self.new.b.file)
            ≡ overwritten (F.content (at_extent extent self.old.root.file self.old.a.file self.old.b.file))
            at bytes.now) }
        ensures root_stays { extent ≢ Extent.Root → self.new.root ≡ self.old.root }
        ensures a_stays { extent ≢ Extent.A → self.new.a ≡ self.old.a }
        ensures b_stays { extent ≢ Extent.B → self.new.b ≡ self.old.b }
        ensures fault { IfErr result (λ fault. IsOfCall extent FileCall.Write fault ⊎ (fault ≡ FileFault.Bound extent)) }
        ensures error { IfErr result (λ fault. HasItsError
            (λ extent. F.fails_with (at_extent extent self.old.root.file self.old.a.file self.old.b.file)) fault) }
        ensures honest { OnOk result (F.is_honest (at_extent extent self.new.root.file self.new.a.file self.new.b.file)
            ≡ F.is_honest (at_extent extent self.old.root.file self.old.a.file self.old.b.file)) }
        ensures working { F.is_working (at_extent extent self.new.root.file self.new.a.file self.new.b.file)
            ≡ F.is_working (at_extent extent self.old.root.file self.old.a.file self.old.b.file) }
    {
        if !is_within(at, bytes.len() as u64) {
            return Err(FileFault::Bound { extent });
        }
        let outcome = match extent {
            Extent::Root => self.root.write(at, bytes),
            Extent::A => self.a.write(at, bytes),
            Extent::B => self.b.write(at, bytes),
        };
        named(extent, FileCall::Write, outcome)
    }

    /// Shortens a file to `len` bytes, where it is longer. It counts as unsynced from here on, whatever
    /// comes of it.
    pub fn cut(&mut self, extent: Extent, len: u64) -> Result<(), FileFault>
        ensures unsynced { marks self.new.root.is_unsynced self.new.a.is_unsynced self.new.b.is_unsynced
            ≡ marked extent (marks self.old.root.is_unsynced self.old.a.is_unsynced self.old.b.is_unsynced) }
        ensures shortened { IsTrue (F.is_honest (at_extent extent self.old.root.file self.old.a.file self.old.b.file))
            → OnOk result (F.content (at_extent extent self.new.root.file self.new.a.file self.new.b.file)
            ≡ take len (F.content (at_extent extent self.old.root.file self.old.a.file self.old.b.file))) }
        ensures root_stays { extent ≢ Extent.Root → self.new.root ≡ self.old.root }
        ensures a_stays { extent ≢ Extent.A → self.new.a ≡ self.old.a }
        ensures b_stays { extent ≢ Extent.B → self.new.b ≡ self.old.b }
        ensures fault { IfErr result (λ fault. IsOfCall extent FileCall.Cut fault) }
        ensures error { IfErr result (λ fault. HasItsError
            (λ extent. F.fails_with (at_extent extent self.old.root.file self.old.a.file self.old.b.file)) fault) }
        ensures works { IsTrue (F.is_working (at_extent extent self.old.root.file self.old.a.file self.old.b.file))
            → IsOk result }
        ensures honest { OnOk result (F.is_honest (at_extent extent self.new.root.file self.new.a.file self.new.b.file)
            ≡ F.is_honest (at_extent extent self.old.root.file self.old.a.file self.old.b.file)) }
        ensures working { F.is_working (at_extent extent self.new.root.file self.new.a.file self.new.b.file)
            ≡ F.is_working (at_extent extent self.old.root.file self.old.a.file self.old.b.file) }
    {
        let outcome = match extent {
            Extent::Root => self.root.cut(len),
            Extent::A => self.a.cut(len),
            Extent::B => self.b.cut(len),
        };
        named(extent, FileCall::Cut, outcome)
    }

    /// Syncs the files that count as unsynced, the root as the last. It is Ok exactly where none counts
    /// as unsynced then; a fault is of the first that does.
    pub fn sync(&mut self) -> Result<(), FileFault>
        ensures fault { IfErr result (λ fault. IsOfCall
            (first_marked (marks self.new.root.is_unsynced self.new.a.is_unsynced self.new.b.is_unsynced))
            FileCall.Sync fault) }
        ensures marked { IfErr result (λ fault. IsOfMarked
            (marks self.old.root.is_unsynced self.old.a.is_unsynced self.old.b.is_unsynced) fault) }
        ensures error { IfErr result (λ fault. HasItsError
            (λ extent. F.fails_with (at_extent extent self.old.root.file self.old.a.file self.old.b.file)) fault) }
        ensures works { IsTrue (F.is_working self.old.root.file) → IsTrue (F.is_working self.old.a.file)
            → IsTrue (F.is_working self.old.b.file) → IsOk result }
        ensures synced { IsOk result
            ↔ (marks self.new.root.is_unsynced self.new.a.is_unsynced self.new.b.is_unsynced
            ≡ none_marked) }
        ensures root_content { IsTrue (F.is_honest self.old.root.file)
            → F.content self.new.root.file ≡ F.content self.old.root.file }
        ensures a_content { IsTrue (F.is_honest self.old.a.file)
            → F.content self.new.a.file ≡ F.content self.old.a.file }
        ensures b_content { IsTrue (F.is_honest self.old.b.file)
            → F.content self.new.b.file ≡ F.content self.old.b.file }
        ensures root_settled { IsTrue (F.is_honest self.old.root.file) → OnOk result (IsTrue (F.is_settled self.new.root.file)) }
        ensures a_settled { IsTrue (F.is_honest self.old.a.file) → OnOk result (IsTrue (F.is_settled self.new.a.file)) }
        ensures b_settled { IsTrue (F.is_honest self.old.b.file) → OnOk result (IsTrue (F.is_settled self.new.b.file)) }
        ensures honest { OnOk result ((F.is_honest self.new.root.file ≡ F.is_honest self.old.root.file)
            × (F.is_honest self.new.a.file ≡ F.is_honest self.old.a.file)
            × (F.is_honest self.new.b.file ≡ F.is_honest self.old.b.file)) }
        ensures working { (F.is_working self.new.root.file ≡ F.is_working self.old.root.file)
            × (F.is_working self.new.a.file ≡ F.is_working self.old.a.file)
            × (F.is_working self.new.b.file ≡ F.is_working self.old.b.file) }
    {
        named(Extent::A, FileCall::Sync, self.a.sync())?;
        named(Extent::B, FileCall::Sync, self.b.sync())?;
        named(Extent::Root, FileCall::Sync, self.root.sync())
    }

    fn file(&self, extent: Extent) -> &StoreFile<F>
        ensures { result.now ≡ at_extent extent self.now.root self.now.a self.now.b }
    {
        match extent {
            Extent::Root => &self.root,
            Extent::A => &self.a,
            Extent::B => &self.b,
        }
    }
}

/// The outcome of a call on a file; a failure says of which.
pub(crate) fn named<T>(
    extent: Extent,
    call: FileCall,
    outcome: io::Result<T>,
) -> Result<T, FileFault>
    ensures same { IsOk result ↔ IsOk outcome }
    ensures value { IfOk result (λ value. outcome ≡ Ok value) }
    ensures fault { IfErr outcome (λ error. result ≡ Err (FileFault.Call extent call error)) }
    ensures told { IfErr result (λ fault. IsOfCall extent call fault × IsOfSomeCall fault) }
{
    match outcome {
        Ok(value) => Ok(value),
        Err(error) => Err(FileFault::Call {
            extent,
            call,
            error,
        }),
    }
}

/// Whether so many bytes at `at` end at most at 2^62.
fn is_within(at: u64, len: u64) -> bool
    ensures { IsTrue result ↔ (at + len ≤ 2 ^ 62) }
{
    match at.checked_add(len) {
        Some(end) => end <= MOST_BYTES,
        None => false,
    }
}
