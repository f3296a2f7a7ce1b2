//! The disk over files: each call that fails is counted, and why the first one did is kept. After a write, a
//! cut or a sync that failed every later call fails.
ghost use Rattle.std.specs.Prelude.{◌≡◌, ◌≢◌, ◌≤◌, ◌^◌, ◌+◌, ◌<◌, ◌↔◌, ◌⊎◌, false, [], Some, length, unwrap_or, take, IsTrue, IfOk, OnOk, OnErr, IfErr, IsOk, IsErr, IsOkAnd, IsSome, MatchResult};
ghost use Rattle.std.proofs.lemmas.Bool.{false≢true};
ghost use Rattle.ax_disk.specs.model.Calls.{overwritten, bytes_from};
ghost use Rattle.ax_faults.specs.Faults.{HasCause, CountsOnce, raised};
ghost use Rattle.ax_files.specs.Faults.{IsOfCall, IsOfCallOnAny, IsOfMarked, IsOfLost, HasItsError, HasOpeningCause, IsSoOfSome};
ghost use Rattle.ax_files.specs.Judging.{IsSound, IsUnsound};
ghost use Rattle.std.specs.Option.{ForSome};
ghost use Rattle.ax_files.specs.Marks.{marks, none_marked, all_marked, marked};

use crate::file_fault::{FileCall, FileFault};
use crate::file_system::FileSystem;
use crate::opening::open_files;
use crate::store_files::StoreFiles;
use crate::system_file::SystemFile;
use ax_disk::{Disk, DiskFailed, Extent};
use ax_faults::FaultCount;

/// What calls act on.
#[derive(Drop)]
pub enum State<F: SystemFile> {
    /// No store is attached.
    Detached,
    /// The files of the store attached.
    Attached(StoreFiles<F>),
    /// A write, a cut or a sync has failed: what the files hold and what is on the device may differ.
    Stopped,
}

/// The files of a store, once one is attached, how many calls have failed, and why the first did. It tells
/// nothing of what a crash leaves, so to the layers above it is not honest; what each call does is told
/// where its files tell.
#[derive(Drop)]
pub struct CountedFiles<F: SystemFile, S> {
    system: S,
    state: State<F>,
    faults: FaultCount,
    first_fault: Option<FileFault>,
}

impl<F: SystemFile, S: FileSystem<F>> CountedFiles<F, S> {
    ghost use Rattle.ax_files.specs.CountedFiles.{HasFiles, IsOfAttach, Keeps, first_of, state_marks};

    /// With no store attached: until one is, each other call fails.
    pub fn over(system: S) -> CountedFiles<F, S>
        ensures system { result.system ≡ system }
        ensures detached { result.state ≡ State.Detached }
        ensures no_fault { (result.faults ≡ 0) × (result.first_fault ≡ None) }
    {
        CountedFiles {
            system,
            state: State::Detached,
            faults: FaultCount::new(),
            first_fault: None,
        }
    }

    /// Why the first call failed of those that did.
    pub fn first_fault(&self) -> Option<FileFault>
        ensures { result ≡ self.now.first_fault }
    {
        self.first_fault
    }

    /// Counts a failure, and keeps why it came where it is the first.
    fn count(&mut self, fault: FileFault)
        ensures raised { self.new.faults ≡ raised self.old.faults }
        ensures never_falls { self.old.faults ≤ self.new.faults }
        ensures first { self.new.first_fault ≡ first_of self.old.first_fault fault }
        ensures explained { IsSome self.new.first_fault }
        ensures state { self.new.state ≡ self.old.state }
        ensures system { self.new.system ≡ self.old.system }
    {
        self.faults.raise();
        if self.first_fault.is_none() {
            self.first_fault = Some(fault);
        }
    }

    /// Passes the outcome of a call on, and counts it where it is a failure.
    fn counted<T: Drop>(&mut self, outcome: Result<T, FileFault>) -> Result<T, DiskFailed>
        ensures cause { HasCause result self.old.faults self.new.faults }
        ensures counts { CountsOnce result self.old.faults self.new.faults }
        ensures same { IfOk result (λ value. outcome ≡ Ok value) }
        ensures fails { IsErr result → IsErr outcome }
        ensures first { MatchResult outcome (λ _. self.new.first_fault ≡ self.old.first_fault)
            (λ fault. self.new.first_fault ≡ first_of self.old.first_fault fault) }
        ensures explained { IsErr result → IsSome self.new.first_fault }
        ensures state { self.new.state ≡ self.old.state }
        ensures system { self.new.system ≡ self.old.system }
    {
        match outcome {
            Ok(value) => Ok(value),
            Err(fault) => {
                self.count(fault);
                Err(DiskFailed)
            }
        }
    }

    /// Passes the outcome of a change or of a sync on. After a failure every later call fails.
    fn lasting(&mut self, outcome: Result<(), FileFault>) -> Result<(), DiskFailed>
        ensures cause { HasCause result self.old.faults self.new.faults }
        ensures counts { CountsOnce result self.old.faults self.new.faults }
        ensures same { IfOk result (λ value. outcome ≡ Ok value) }
        ensures fails { IsErr result → IsErr outcome }
        ensures first { MatchResult outcome (λ _. self.new.first_fault ≡ self.old.first_fault)
            (λ fault. self.new.first_fault ≡ first_of self.old.first_fault fault) }
        ensures explained { IsErr result → IsSome self.new.first_fault }
        ensures stops { IsErr result → self.new.state ≡ State.Stopped }
        ensures kept { OnOk result (self.new.state ≡ self.old.state) }
    {
        match outcome {
            Ok(()) => Ok(()),
            Err(fault) => {
                self.count(fault);
                self.state = State::Stopped;
                Err(DiskFailed)
            }
        }
    }

    /// Lets go of the files attached, before others are opened. After a write, a cut or a sync that
    /// failed it fails.
    fn leave(&mut self) -> Result<(), DiskFailed>
        ensures cause { HasCause result self.old.faults self.new.faults }
        ensures counts { CountsOnce result self.old.faults self.new.faults }
        ensures explained { IsErr result → IsSome self.new.first_fault }
        ensures kept { MatchResult result (λ _. self.new.first_fault ≡ self.old.first_fault)
            (λ _. Keeps (λ fault. fault ≡ FileFault.Stopped) self.old.first_fault self.new.first_fault) }
        ensures stopped { IsErr result ↔ (self.old.state ≡ State.Stopped) }
        ensures system { self.new.system ≡ self.old.system }
        ensures detached { MatchResult result (λ _. self.new.state ≡ State.Detached)
            (λ _. self.new.state ≡ State.Stopped) }
    {
        if let State::Stopped = &self.state {
            return self.counted(Err(FileFault::Stopped));
        }
        self.state = State::Detached;
        Ok(())
    }

    /// Attaches files that were opened, or counts that they were not. After a write, a cut or a sync that
    /// failed it fails.
    pub(crate) fn keep(
        &mut self,
        opened: Result<StoreFiles<F>, FileFault>,
    ) -> Result<(), DiskFailed>
        ensures cause { HasCause result self.old.faults self.new.faults }
        ensures counts { CountsOnce result self.old.faults self.new.faults }
        ensures explained { IsErr result → IsSome self.new.first_fault }
        ensures kept { MatchResult result (λ _. self.new.first_fault ≡ self.old.first_fault)
            (λ _. Keeps (IsOfAttach (λ fault. opened ≡ Err fault) self.old.state)
            self.old.first_fault self.new.first_fault) }
        ensures stopped { self.old.state ≡ State.Stopped → IsErr result }
        ensures stays { (self.old.state ≡ State.Stopped) ↔ (self.new.state ≡ State.Stopped) }
        ensures attached { OnOk result (IsOkAnd opened (λ files. self.new.state ≡ State.Attached files)) }
        ensures works { IsErr result → (self.old.state ≡ State.Stopped) ⊎ IsErr opened }
        ensures system { self.new.system ≡ self.old.system }
        ensures without { OnErr result ((HasFiles self.new.state → ⊥) × (state_marks self.new.state ≡ all_marked)) }
    {
        self.leave()?;
        self.state = State::Attached(self.counted(opened)?);
        Ok(())
    }
}

impl<F: SystemFile, S: FileSystem<F>> Disk for CountedFiles<F, S> {
    ghost use Rattle.ax_disk.specs.DeadDisk.{nothing_told};
    ghost use Rattle.ax_files.specs.CountedFiles.{HasFiles, HasFilesThat, IfFiles, FilesBecome, IsAnswered, IsAnsweredBy, IsOfAttach, Keeps, file_at, state_marks};

    ghost faults = { λ disk. disk.faults };

    ghost is_honest = { λ _. false };

    ghost store_named = { λ _. [] };

    ghost attached = { λ _. [] };

    ghost history = { λ _ _. nothing_told };

    ghost reads_may_stay = { λ _ _ honest. absurd (false≢true honest) };

    ghost is_current = { λ _ _ honest. absurd (false≢true honest) };

    /// Opens the files of a store and locks them. After a write, a cut or a sync that failed it fails.
    fn attach(&mut self, name: &str) -> Result<(), DiskFailed>
        ensures cause { HasCause result self.old.faults self.new.faults }
        ensures counts { CountsOnce result self.old.faults self.new.faults }
        ensures explained { IsErr result → IsSome self.new.first_fault }
        ensures stopped { self.old.state ≡ State.Stopped → IsErr result }
        ensures stays { (self.old.state ≡ State.Stopped) ↔ (self.new.state ≡ State.Stopped) }
        ensures attached { IsOk result ↔ HasFiles self.new.state }
        ensures unsynced { state_marks self.new.state ≡ all_marked }
        ensures kept { MatchResult result (λ _. self.new.first_fault ≡ self.old.first_fault)
            (λ _. Keeps (IsOfAttach (λ fault. HasOpeningCause (λ extent. S.fails_to_open name.now extent)
            (λ extent. F.fails_to_lock name.now extent) (λ extent call error. IsSoOfSome (λ f. F.is_of f name.now extent
            × IsTrue (F.is_locked f) × F.fails_with f call error)) (λ error. S.fails_to_sync name.now error) fault)
            self.old.state) self.old.first_fault self.new.first_fault) }
        ensures lost { IsTrue (S.is_honest self.old.system)
            → ForSome (S.held self.old.system name.now Extent.Root) (λ bytes. length bytes < 2 ^ 63)
            → OnErr result (Keeps (λ fault. IsOfLost fault → (self.new.system ≡ self.old.system)
            × IsUnsound (S.held self.old.system name.now Extent.Root) (S.held self.old.system name.now Extent.A)
            (S.held self.old.system name.now Extent.B) fault) self.old.first_fault self.new.first_fault) }
        ensures sound_before { IsTrue (S.is_honest self.old.system)
            → ForSome (S.held self.old.system name.now Extent.Root) (λ bytes. length bytes < 2 ^ 63)
            → OnOk result (IsSound (S.held self.old.system name.now Extent.Root)
            (S.held self.old.system name.now Extent.A) (S.held self.old.system name.now Extent.B)) }
        ensures made_if_sound { IsTrue (S.is_honest self.old.system)
            → ForSome (S.held self.old.system name.now Extent.Root) (λ bytes. length bytes < 2 ^ 63)
            → (self.new.system ≡ self.old.system) ⊎ IsSound (S.held self.old.system name.now Extent.Root)
            (S.held self.old.system name.now Extent.A) (S.held self.old.system name.now Extent.B) }
        ensures honest { IsTrue (S.is_honest self.old.system)
            → OnOk result (HasFilesThat (λ files. IsTrue (F.is_honest files.root.file)
            × IsTrue (F.is_honest files.a.file) × IsTrue (F.is_honest files.b.file)) self.new.state) }
        ensures content { IsTrue (S.is_honest self.old.system) → OnOk result (HasFilesThat (λ files.
            (F.content files.root.file ≡ unwrap_or (S.held self.old.system name.now Extent.Root) [])
            × (F.content files.a.file ≡ unwrap_or (S.held self.old.system name.now Extent.A) [])
            × (F.content files.b.file ≡ unwrap_or (S.held self.old.system name.now Extent.B) [])) self.new.state) }
        ensures untouched { self.old.state ≡ State.Stopped → self.new.system ≡ self.old.system }
        ensures of { OnOk result (HasFilesThat (λ files. F.is_of files.root.file name.now Extent.Root
            × F.is_of files.a.file name.now Extent.A × F.is_of files.b.file name.now Extent.B) self.new.state) }
        ensures locked { OnOk result (HasFilesThat (λ files. IsTrue (F.is_locked files.root.file)
            × IsTrue (F.is_locked files.a.file) × IsTrue (F.is_locked files.b.file)) self.new.state) }
        ensures sound { OnOk result (HasFilesThat (λ files. IsTrue (F.is_honest files.root.file)
            → length (F.content files.root.file) < 2 ^ 63 → IsTrue (F.is_honest files.a.file)
            → IsTrue (F.is_honest files.b.file) → IsSound (Some (F.content files.root.file))
            (Some (F.content files.a.file)) (Some (F.content files.b.file))) self.new.state) }
        ensures folder { OnOk result (IsTrue (S.keeps_files self.new.system name.now)) }
    {
        // Their locks are given up before they are taken anew.
        self.leave()?;
        let opened = open_files(&mut self.system, name);
        self.keep(opened)
    }

    /// The length of a file. One of more than 2^62 bytes is a failure.
    fn len(&mut self, ext: Extent) -> Result<u64, DiskFailed>
        ensures limit { IfOk result (λ n. n ≤ 2 ^ 62) }
        ensures cause { HasCause result self.old.faults self.new.faults }
        ensures counts { CountsOnce result self.old.faults self.new.faults }
        ensures explained { IsErr result → IsSome self.new.first_fault }
        ensures kept { MatchResult result (λ _. self.new.first_fault ≡ self.old.first_fault)
            (λ _. Keeps (IsAnswered (λ fault. IsOfCall ext FileCall.Length fault ⊎ (fault ≡ FileFault.Bound ext)) self.old.state)
            self.old.first_fault self.new.first_fault) }
        ensures stopped { self.old.state ≡ State.Stopped → IsErr result }
        ensures state { self.new.state ≡ self.old.state }
        ensures length { IfOk result (λ n. HasFilesThat (λ files. IsTrue (F.is_honest (file_at ext files))
            → n ≡ length (F.content (file_at ext files))) self.old.state) }
        ensures error { OnErr result (Keeps (IsAnsweredBy
            (λ files. HasItsError (λ extent. F.fails_with (file_at extent files))) self.old.state)
            self.old.first_fault self.new.first_fault) }
        ensures bound { OnErr result (Keeps (IsAnsweredBy (λ files fault. IsTrue (F.is_honest (file_at ext files))
            → fault ≡ FileFault.Bound ext → 2 ^ 62 < length (F.content (file_at ext files))) self.old.state)
            self.old.first_fault self.new.first_fault) }
        ensures works { IfFiles (λ files. IsTrue (F.is_working (file_at ext files))
            → OnErr result (Keeps (λ fault. fault ≡ FileFault.Bound ext) self.old.first_fault self.new.first_fault))
            self.old.state }
        ensures works_within { IfFiles (λ files. IsTrue (F.is_working (file_at ext files))
            → IsTrue (F.is_honest (file_at ext files)) → length (F.content (file_at ext files)) ≤ 2 ^ 62
            → IsOk result) self.old.state }
    {
        let outcome = match &self.state {
            State::Attached(files) => files.len(ext),
            State::Detached => Err(FileFault::Detached),
            State::Stopped => Err(FileFault::Stopped),
        };
        self.counted(outcome)
    }

    /// Fills `buf` with the bytes at `at`, and with 0 past the end of the file.
    fn read(&mut self, ext: Extent, at: u64, buf: &mut [u8]) -> Result<(), DiskFailed>
        ensures cause { HasCause result self.old.faults self.new.faults }
        ensures counts { CountsOnce result self.old.faults self.new.faults }
        ensures explained { IsErr result → IsSome self.new.first_fault }
        ensures kept { MatchResult result (λ _. self.new.first_fault ≡ self.old.first_fault)
            (λ _. Keeps (IsAnswered (λ fault. IsOfCall ext FileCall.Read fault) self.old.state)
            self.old.first_fault self.new.first_fault) }
        ensures stopped { self.old.state ≡ State.Stopped → IsErr result }
        ensures state { self.new.state ≡ self.old.state }
        ensures bytes { OnOk result (HasFilesThat (λ files. IsTrue (F.is_honest (file_at ext files))
            → length (F.content (file_at ext files)) < 2 ^ 63
            → buf.new ≡ bytes_from (F.content (file_at ext files)) at (length buf.old)) self.old.state) }
        ensures error { OnErr result (Keeps (IsAnsweredBy
            (λ files. HasItsError (λ extent. F.fails_with (file_at extent files))) self.old.state)
            self.old.first_fault self.new.first_fault) }
        ensures works { IfFiles (λ files. IsTrue (F.is_working (file_at ext files)) → IsOk result) self.old.state }
    {
        let outcome = match &self.state {
            State::Attached(files) => files.read(ext, at, buf),
            State::Detached => Err(FileFault::Detached),
            State::Stopped => Err(FileFault::Stopped),
        };
        self.counted(outcome)
    }

    /// Writes all the bytes at `at`. An end above 2^62 is a failure.
    fn write_at(&mut self, ext: Extent, at: u64, bytes: &[u8]) -> Result<(), DiskFailed>
        ensures limit { 2 ^ 62 < at + length bytes.now → IsErr result }
        ensures cause { HasCause result self.old.faults self.new.faults }
        ensures counts { CountsOnce result self.old.faults self.new.faults }
        ensures explained { IsErr result → IsSome self.new.first_fault }
        ensures kept { MatchResult result (λ _. self.new.first_fault ≡ self.old.first_fault)
            (λ _. Keeps (IsAnswered (λ fault. IsOfCall ext FileCall.Write fault ⊎ (fault ≡ FileFault.Bound ext)) self.old.state)
            self.old.first_fault self.new.first_fault) }
        ensures stops { IsErr result ↔ (self.new.state ≡ State.Stopped) }
        ensures marked { OnOk result (state_marks self.new.state ≡ marked ext (state_marks self.old.state)) }
        ensures stopped { self.old.state ≡ State.Stopped → IsErr result }
        ensures written { OnOk result (FilesBecome (λ old new. IsTrue (F.is_honest (file_at ext old))
            → at ≤ length (F.content (file_at ext old))
            → F.content (file_at ext new) ≡ overwritten (F.content (file_at ext old)) at bytes.now)
            self.old.state self.new.state) }
        ensures root_stays { OnOk result (FilesBecome (λ old new. ext ≢ Extent.Root → new.root ≡ old.root)
            self.old.state self.new.state) }
        ensures a_stays { OnOk result (FilesBecome (λ old new. ext ≢ Extent.A → new.a ≡ old.a)
            self.old.state self.new.state) }
        ensures b_stays { OnOk result (FilesBecome (λ old new. ext ≢ Extent.B → new.b ≡ old.b)
            self.old.state self.new.state) }
        ensures honest { OnOk result (FilesBecome (λ old new. F.is_honest (file_at ext new) ≡ F.is_honest (file_at ext old))
            self.old.state self.new.state) }
        ensures working { OnOk result (FilesBecome (λ old new. F.is_working (file_at ext new) ≡ F.is_working (file_at ext old))
            self.old.state self.new.state) }
        ensures error { OnErr result (Keeps (IsAnsweredBy
            (λ files. HasItsError (λ extent. F.fails_with (file_at extent files))) self.old.state)
            self.old.first_fault self.new.first_fault) }
        ensures bound { OnErr result (Keeps (IsAnswered
            (λ fault. (fault ≡ FileFault.Bound ext) ↔ (2 ^ 62 < at + length bytes.now)) self.old.state)
            self.old.first_fault self.new.first_fault) }
        ensures works { IfFiles (λ files. IsTrue (F.is_working (file_at ext files))
            → at + length bytes.now ≤ 2 ^ 62 → IsOk result) self.old.state }
    {
        let outcome = match &mut self.state {
            State::Attached(files) => files.write(ext, at, bytes),
            State::Detached => Err(FileFault::Detached),
            State::Stopped => Err(FileFault::Stopped),
        };
        self.lasting(outcome)
    }

    /// Shortens a file to `len` bytes, where it is longer.
    fn cut(&mut self, ext: Extent, len: u64) -> Result<(), DiskFailed>
        ensures cause { HasCause result self.old.faults self.new.faults }
        ensures counts { CountsOnce result self.old.faults self.new.faults }
        ensures explained { IsErr result → IsSome self.new.first_fault }
        ensures kept { MatchResult result (λ _. self.new.first_fault ≡ self.old.first_fault)
            (λ _. Keeps (IsAnswered (λ fault. IsOfCall ext FileCall.Cut fault) self.old.state)
            self.old.first_fault self.new.first_fault) }
        ensures stops { IsErr result ↔ (self.new.state ≡ State.Stopped) }
        ensures marked { OnOk result (state_marks self.new.state ≡ marked ext (state_marks self.old.state)) }
        ensures stopped { self.old.state ≡ State.Stopped → IsErr result }
        ensures shortened { OnOk result (FilesBecome (λ old new. IsTrue (F.is_honest (file_at ext old))
            → F.content (file_at ext new) ≡ take len (F.content (file_at ext old)))
            self.old.state self.new.state) }
        ensures root_stays { OnOk result (FilesBecome (λ old new. ext ≢ Extent.Root → new.root ≡ old.root)
            self.old.state self.new.state) }
        ensures a_stays { OnOk result (FilesBecome (λ old new. ext ≢ Extent.A → new.a ≡ old.a)
            self.old.state self.new.state) }
        ensures b_stays { OnOk result (FilesBecome (λ old new. ext ≢ Extent.B → new.b ≡ old.b)
            self.old.state self.new.state) }
        ensures honest { OnOk result (FilesBecome (λ old new. F.is_honest (file_at ext new) ≡ F.is_honest (file_at ext old))
            self.old.state self.new.state) }
        ensures working { OnOk result (FilesBecome (λ old new. F.is_working (file_at ext new) ≡ F.is_working (file_at ext old))
            self.old.state self.new.state) }
        ensures error { OnErr result (Keeps (IsAnsweredBy
            (λ files. HasItsError (λ extent. F.fails_with (file_at extent files))) self.old.state)
            self.old.first_fault self.new.first_fault) }
        ensures works { IfFiles (λ files. IsTrue (F.is_working (file_at ext files)) → IsOk result) self.old.state }
    {
        let outcome = match &mut self.state {
            State::Attached(files) => files.cut(ext, len),
            State::Detached => Err(FileFault::Detached),
            State::Stopped => Err(FileFault::Stopped),
        };
        self.lasting(outcome)
    }

    /// Syncs the files that count as unsynced. A failure is of one of them.
    fn sync(&mut self) -> Result<(), DiskFailed>
        ensures cause { HasCause result self.old.faults self.new.faults }
        ensures counts { CountsOnce result self.old.faults self.new.faults }
        ensures explained { IsErr result → IsSome self.new.first_fault }
        ensures kept { MatchResult result (λ _. self.new.first_fault ≡ self.old.first_fault)
            (λ _. Keeps (IsAnswered (λ fault. IsOfCallOnAny FileCall.Sync fault) self.old.state)
            self.old.first_fault self.new.first_fault) }
        ensures stops { IsErr result ↔ (self.new.state ≡ State.Stopped) }
        ensures synced { IsOk result ↔ (state_marks self.new.state ≡ none_marked) }
        ensures stopped { self.old.state ≡ State.Stopped → IsErr result }
        ensures root_content { OnOk result (FilesBecome (λ old new. IsTrue (F.is_honest old.root.file)
            → F.content new.root.file ≡ F.content old.root.file)
            self.old.state self.new.state) }
        ensures a_content { OnOk result (FilesBecome (λ old new. IsTrue (F.is_honest old.a.file)
            → F.content new.a.file ≡ F.content old.a.file)
            self.old.state self.new.state) }
        ensures b_content { OnOk result (FilesBecome (λ old new. IsTrue (F.is_honest old.b.file)
            → F.content new.b.file ≡ F.content old.b.file)
            self.old.state self.new.state) }
        ensures root_settled { OnOk result (FilesBecome (λ old new. IsTrue (F.is_honest old.root.file)
            → IsTrue (F.is_settled new.root.file))
            self.old.state self.new.state) }
        ensures a_settled { OnOk result (FilesBecome (λ old new. IsTrue (F.is_honest old.a.file)
            → IsTrue (F.is_settled new.a.file))
            self.old.state self.new.state) }
        ensures b_settled { OnOk result (FilesBecome (λ old new. IsTrue (F.is_honest old.b.file)
            → IsTrue (F.is_settled new.b.file))
            self.old.state self.new.state) }
        ensures honest { OnOk result (FilesBecome (λ old new. (F.is_honest new.root.file ≡ F.is_honest old.root.file)
            × (F.is_honest new.a.file ≡ F.is_honest old.a.file) × (F.is_honest new.b.file ≡ F.is_honest old.b.file))
            self.old.state self.new.state) }
        ensures working { OnOk result (FilesBecome (λ old new. (F.is_working new.root.file ≡ F.is_working old.root.file)
            × (F.is_working new.a.file ≡ F.is_working old.a.file) × (F.is_working new.b.file ≡ F.is_working old.b.file))
            self.old.state self.new.state) }
        ensures error { OnErr result (Keeps (IsAnsweredBy
            (λ files. HasItsError (λ extent. F.fails_with (file_at extent files))) self.old.state)
            self.old.first_fault self.new.first_fault) }
        ensures of_marked { OnErr result (Keeps
            (IsAnswered (λ fault. IsOfMarked (state_marks self.old.state) fault) self.old.state)
            self.old.first_fault self.new.first_fault) }
        ensures works { IfFiles (λ files. IsTrue (F.is_working files.root.file) → IsTrue (F.is_working files.a.file)
            → IsTrue (F.is_working files.b.file) → IsOk result) self.old.state }
    {
        let outcome = match &mut self.state {
            State::Attached(files) => files.sync(),
            State::Detached => Err(FileFault::Detached),
            State::Stopped => Err(FileFault::Stopped),
        };
        self.lasting(outcome)
    }
}
