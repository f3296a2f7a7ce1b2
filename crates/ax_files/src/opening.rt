//! Opening the files of a store: each is locked, a store of which files have been lost is refused, and
//! only then are absent files made.

ghost use Rattle.std.specs.Prelude.{◌≡◌, ◌≢◌, ◌^◌, ◌<◌, ◌≤◌, ◌+◌, ◌⊎◌, ℕ, List, [], Option, length, take, drop, IsTrue, IsOk, IfOk, IfErr, OnOk, IfSome, IsSomeAnd, option_map, unwrap_or};
ghost use Rattle.std.specs.Option.{ForSome};
ghost use Rattle.ax_disk.specs.declared.extent.Extent.{Extent};
ghost use Rattle.ax_files.specs.Content.{at_extent, Holds, IsFound};
ghost use Rattle.ax_files.specs.Faults.{IsOfCall, IsOfSomeCall, IsOfFinding, IsOfLost, IsAbsent, HasOpeningCause, IsSoOfSome};
ghost use Rattle.ax_files.specs.Judging.{IsAtRoot, IsRootFile, IsSound, IsUnsound};
ghost use Rattle.ax_files.specs.Marks.{marks, all_marked};
ghost use Rattle.ax_frame.specs.RootSlot.{IsSlot};

use crate::file_fault::{FileCall, FileFault, RootState};
use crate::file_system::FileSystem;
use crate::judging::{judge, state_of};
use crate::store_file::fill_from;
use crate::store_files::{StoreFiles, named};
use crate::system_file::SystemFile;
use ax_disk::Extent;
use ax_frame::{RootSlot, read_slot};
use std::fs::TryLockError;
use std::io::ErrorKind;

/// A root of fewer bytes is not whole.
const WHOLE_ROOT: u64 = 33;

/// Opens the files of the store of that name and locks each, so that no other program opens them while
/// they are open; makes those that are absent, and syncs their folder, so that a crash keeps them. A
/// store of which files have been lost is refused before anything is made. No byte of a file is changed.
pub(crate) fn open_files<F: SystemFile, S: FileSystem<F>>(
    system: &mut S,
    name: &str,
) -> Result<StoreFiles<F>, FileFault>
    ensures unsynced { IfOk result (λ files. marks files.root.is_unsynced files.a.is_unsynced files.b.is_unsynced
        ≡ all_marked) }
    ensures cause { IfErr result (λ fault. HasOpeningCause (λ extent. S.fails_to_open name.now extent)
        (λ extent. F.fails_to_lock name.now extent) (λ extent call error. IsSoOfSome (λ f. F.is_of f name.now extent
        × IsTrue (F.is_locked f) × F.fails_with f call error)) (λ error. S.fails_to_sync name.now error) fault) }
    ensures lost { IsTrue (S.is_honest system.old)
        → ForSome (S.held system.old name.now Extent.Root) (λ bytes. length bytes < 2 ^ 63)
        → IfErr result (λ fault. IsOfLost fault → (system.new ≡ system.old) × IsUnsound (S.held system.old name.now Extent.Root)
        (S.held system.old name.now Extent.A) (S.held system.old name.now Extent.B) fault) }
    ensures sound_before { IsTrue (S.is_honest system.old)
        → ForSome (S.held system.old name.now Extent.Root) (λ bytes. length bytes < 2 ^ 63)
        → OnOk result (IsSound (S.held system.old name.now Extent.Root)
        (S.held system.old name.now Extent.A) (S.held system.old name.now Extent.B)) }
    ensures made_if_sound { IsTrue (S.is_honest system.old)
        → ForSome (S.held system.old name.now Extent.Root) (λ bytes. length bytes < 2 ^ 63)
        → (system.new ≡ system.old) ⊎ IsSound (S.held system.old name.now Extent.Root)
        (S.held system.old name.now Extent.A) (S.held system.old name.now Extent.B) }
    ensures honest { IsTrue (S.is_honest system.old) → IfOk result (λ files. IsTrue (F.is_honest files.root.file)
        × IsTrue (F.is_honest files.a.file) × IsTrue (F.is_honest files.b.file)) }
    ensures content { IsTrue (S.is_honest system.old) → IfOk result (λ files.
        (F.content files.root.file ≡ unwrap_or (S.held system.old name.now Extent.Root) [])
        × (F.content files.a.file ≡ unwrap_or (S.held system.old name.now Extent.A) [])
        × (F.content files.b.file ≡ unwrap_or (S.held system.old name.now Extent.B) [])) }
    ensures of { IfOk result (λ files. F.is_of files.root.file name.now Extent.Root
        × F.is_of files.a.file name.now Extent.A × F.is_of files.b.file name.now Extent.B) }
    ensures locked { IfOk result (λ files. IsTrue (F.is_locked files.root.file)
        × IsTrue (F.is_locked files.a.file) × IsTrue (F.is_locked files.b.file)) }
    ensures sound { IfOk result (λ files. IsTrue (F.is_honest files.root.file)
        → length (F.content files.root.file) < 2 ^ 63 → IsTrue (F.is_honest files.a.file)
        → IsTrue (F.is_honest files.b.file) → IsSound (Some (F.content files.root.file))
        (Some (F.content files.a.file)) (Some (F.content files.b.file))) }
    ensures kept { OnOk result (IsTrue (S.keeps_files system.new name.now)) }
{
    let FoundFiles { root, a, b } = find_files(system, name)?;
    let root = found_or_made(system, name, Extent::Root, root)?;
    let a = found_or_made(system, name, Extent::A, a)?;
    let b = found_or_made(system, name, Extent::B, b)?;
    // Another program may have made and filled files while none was locked here.
    let files = judged_whole(root, a, b)?;
    if let Err(error) = system.sync_folder(name) {
        return Err(FileFault::Folder { error });
    }
    Ok(files)
}

/// Files of a store that are there, of which nothing has been lost.
#[derive(Drop)]
struct FoundFiles<F: SystemFile> {
    root: Option<F>,
    a: Option<F>,
    b: Option<F>,
    ghost sound: { ForSome root (λ f. IsTrue (F.is_honest f) × (length (F.content f) < 2 ^ 63))
        → ForSome a (λ f. IsTrue (F.is_honest f)) → ForSome b (λ f. IsTrue (F.is_honest f))
        → ∥ IsSound (option_map (λ f. F.content f) root) (option_map (λ f. F.content f) a)
        (option_map (λ f. F.content f) b) ∥₁ },
}

/// Opens and locks the files that are there. A store of which files have been lost is refused. Nothing is
/// made.
fn find_files<F: SystemFile, S: FileSystem<F>>(
    system: &mut S,
    name: &str,
) -> Result<FoundFiles<F>, FileFault>
    ensures cause { IfErr result (λ fault. HasOpeningCause (λ extent. S.fails_to_open name.now extent)
        (λ extent. F.fails_to_lock name.now extent) (λ extent call error. IsSoOfSome (λ f. F.is_of f name.now extent
        × IsTrue (F.is_locked f) × F.fails_with f call error)) (λ error. S.fails_to_sync name.now error) fault) }
    ensures untouched { system.new ≡ system.old }
    ensures lost { IsTrue (S.is_honest system.old)
        → ForSome (S.held system.old name.now Extent.Root) (λ bytes. length bytes < 2 ^ 63)
        → IfErr result (λ fault. IsOfLost fault → IsUnsound (S.held system.old name.now Extent.Root)
        (S.held system.old name.now Extent.A) (S.held system.old name.now Extent.B) fault) }
    ensures sound { IsTrue (S.is_honest system.old)
        → ForSome (S.held system.old name.now Extent.Root) (λ bytes. length bytes < 2 ^ 63)
        → OnOk result (IsSound (S.held system.old name.now Extent.Root)
        (S.held system.old name.now Extent.A) (S.held system.old name.now Extent.B)) }
    ensures content { IsTrue (S.is_honest system.old) → IfOk result (λ found.
        IsFound (λ f. F.is_honest f) (λ f. F.content f) found.root (S.held system.old name.now Extent.Root)
        × IsFound (λ f. F.is_honest f) (λ f. F.content f) found.a (S.held system.old name.now Extent.A)
        × IsFound (λ f. F.is_honest f) (λ f. F.content f) found.b (S.held system.old name.now Extent.B)) }
    ensures root { IfOk result (λ found. ForSome found.root
        (λ f. F.is_of f name.now Extent.Root × IsTrue (F.is_locked f))) }
    ensures a { IfOk result (λ found. ForSome found.a
        (λ f. F.is_of f name.now Extent.A × IsTrue (F.is_locked f))) }
    ensures b { IfOk result (λ found. ForSome found.b
        (λ f. F.is_of f name.now Extent.B × IsTrue (F.is_locked f))) }
    ensures absent { IfOk result (λ found. (found.root ≡ None → IsAbsent (S.fails_to_open name.now Extent.Root))
        × (found.a ≡ None → IsAbsent (S.fails_to_open name.now Extent.A))
        × (found.b ≡ None → IsAbsent (S.fails_to_open name.now Extent.B))) }
{
    let root = find_file(system, name, Extent::Root)?;
    let a = find_file(system, name, Extent::A)?;
    let b = find_file(system, name, Extent::B)?;
    judged(root, a, b)
}

/// The file where there is one, locked.
fn find_file<F: SystemFile, S: FileSystem<F>>(
    system: &mut S,
    name: &str,
    extent: Extent,
) -> Result<Option<F>, FileFault>
    ensures told { IfErr result (λ fault. IsOfFinding extent (λ error. S.fails_to_open name.now extent error)
        (λ error. F.fails_to_lock name.now extent error) fault) }
    ensures untouched { system.new ≡ system.old }
    ensures content { IsTrue (S.is_honest system.old) → IfOk result (λ found.
        IsFound (λ f. F.is_honest f) (λ f. F.content f) found (S.held system.old name.now extent)) }
    ensures of { IfOk result (λ found. ForSome found (λ f. F.is_of f name.now extent)) }
    ensures locked { IfOk result (λ found. ForSome found (λ f. IsTrue (F.is_locked f))) }
    ensures absent { result ≡ Ok None → IsAbsent (S.fails_to_open name.now extent) }
{
    match system.open(name, extent, false) {
        Err(error) if error.kind() == ErrorKind::NotFound => Ok(None),
        outcome => {
            let file = named(extent, FileCall::Open, outcome)?;
            Ok(Some(locked(file, extent)?))
        }
    }
}

/// The file that was found, or one that is made, locked.
fn found_or_made<F: SystemFile, S: FileSystem<F>>(
    system: &mut S,
    name: &str,
    extent: Extent,
    found: Option<F>,
) -> Result<F, FileFault>
    ensures told { IfErr result (λ fault. IsOfFinding extent (λ error. S.fails_to_open name.now extent error)
        (λ error. F.fails_to_lock name.now extent error) fault) }
    ensures found { IfSome found (λ f. (result ≡ Ok f) × (system.new ≡ system.old)) }
    ensures content { IsTrue (S.is_honest system.old)
        → IsFound (λ f. F.is_honest f) (λ f. F.content f) found (S.held system.old name.now extent)
        → IfOk result (λ f. IsTrue (F.is_honest f)
        × (F.content f ≡ unwrap_or (S.held system.old name.now extent) [])) }
    ensures others { IsTrue (S.is_honest system.old) → IsTrue (S.is_honest system.new)
        × ((other : Extent) → other ≢ extent
        → S.held system.new name.now other ≡ S.held system.old name.now other) }
    ensures of { ForSome found (λ f. F.is_of f name.now extent) → IfOk result (λ f. F.is_of f name.now extent) }
    ensures locked { ForSome found (λ f. IsTrue (F.is_locked f)) → IfOk result (λ f. IsTrue (F.is_locked f)) }
{
    if let Some(file) = found {
        return Ok(file);
    }
    let file = named(extent, FileCall::Open, system.open(name, extent, true))?;
    locked(file, extent)
}

/// The file, locked for this program alone, without waiting.
fn locked<F: SystemFile>(mut file: F, extent: Extent) -> Result<F, FileFault>
    ensures of { (name : List ℕ) → (extent : Extent) → F.is_of file name extent
        → IfOk result (λ now. F.is_of now name extent) }
    ensures locked { IfOk result (λ now. IsTrue (F.is_locked now)) }
    ensures alone { IsTrue (F.is_honest file)
        → IfOk result (λ now. IsTrue (F.is_honest now) × (F.content now ≡ F.content file)) }
    ensures told { IfErr result (λ fault. IsOfCall extent FileCall.Lock fault ⊎ (fault ≡ FileFault.Locked extent)) }
    ensures error { (name : List ℕ) → F.is_of file name extent → IfErr result (λ fault.
        IsOfFinding extent (λ _. ⊥) (λ error. F.fails_to_lock name extent error) fault) }
{
    match file.lock() {
        Ok(()) => Ok(file),
        Err(TryLockError::WouldBlock) => Err(FileFault::Locked { extent }),
        Err(TryLockError::Error(error)) => Err(FileFault::Call {
            extent,
            call: FileCall::Lock,
            error,
        }),
    }
}

/// The files that were found, where none of their store has been lost.
fn judged<F: SystemFile>(
    root: Option<F>,
    a: Option<F>,
    b: Option<F>,
) -> Result<FoundFiles<F>, FileFault>
    ensures same { IfOk result (λ found. (found.root ≡ root) × (found.a ≡ a) × (found.b ≡ b)) }
    ensures cause { (name : List ℕ) → ForSome root (λ f. F.is_of f name Extent.Root × IsTrue (F.is_locked f))
        → ForSome a (λ f. F.is_of f name Extent.A × IsTrue (F.is_locked f))
        → ForSome b (λ f. F.is_of f name Extent.B × IsTrue (F.is_locked f))
        → IfErr result (λ fault. HasOpeningCause (λ _ _. ⊥) (λ _ _. ⊥) (λ extent call error. IsSoOfSome
        (λ f. F.is_of f name extent × IsTrue (F.is_locked f) × F.fails_with f call error)) (λ _. ⊥) fault) }
    ensures sound { (in_root : Option (List ℕ)) → (in_a : Option (List ℕ)) → (in_b : Option (List ℕ))
        → IsFound (λ f. F.is_honest f) (λ f. F.content f) root in_root
        → IsFound (λ f. F.is_honest f) (λ f. F.content f) a in_a
        → IsFound (λ f. F.is_honest f) (λ f. F.content f) b in_b
        → ForSome in_root (λ bytes. length bytes < 2 ^ 63) → OnOk result (IsSound in_root in_a in_b) }
    ensures lost { (in_root : Option (List ℕ)) → (in_a : Option (List ℕ)) → (in_b : Option (List ℕ))
        → IsFound (λ f. F.is_honest f) (λ f. F.content f) root in_root
        → IsFound (λ f. F.is_honest f) (λ f. F.content f) a in_a
        → IsFound (λ f. F.is_honest f) (λ f. F.content f) b in_b
        → ForSome in_root (λ bytes. length bytes < 2 ^ 63)
        → IfErr result (λ fault. IsOfLost fault → IsUnsound in_root in_a in_b fault) }
{
    refuse_lost(root.as_ref(), a.as_ref(), b.as_ref())?;
    Ok(FoundFiles { root, a, b })
}

/// The files of a store, all of which are there, where none has been lost.
fn judged_whole<F: SystemFile>(root: F, a: F, b: F) -> Result<StoreFiles<F>, FileFault>
    ensures unsynced { IfOk result (λ files. marks files.root.is_unsynced files.a.is_unsynced files.b.is_unsynced
        ≡ all_marked) }
    ensures same { IfOk result (λ files. (files.root.file ≡ root) × (files.a.file ≡ a) × (files.b.file ≡ b)) }
    ensures cause { (name : List ℕ) → F.is_of root name Extent.Root × IsTrue (F.is_locked root)
        → F.is_of a name Extent.A × IsTrue (F.is_locked a) → F.is_of b name Extent.B × IsTrue (F.is_locked b)
        → IfErr result (λ fault. HasOpeningCause (λ _ _. ⊥) (λ _ _. ⊥) (λ extent call error. IsSoOfSome
        (λ f. F.is_of f name extent × IsTrue (F.is_locked f) × F.fails_with f call error)) (λ _. ⊥) fault) }
    ensures sound { IsTrue (F.is_honest root) → length (F.content root) < 2 ^ 63 → IsTrue (F.is_honest a)
        → IsTrue (F.is_honest b)
        → OnOk result (IsSound (Some (F.content root)) (Some (F.content a)) (Some (F.content b))) }
    ensures still_sound { (in_root : Option (List ℕ)) → (in_a : Option (List ℕ)) → (in_b : Option (List ℕ))
        → Holds (λ f. F.is_honest f) (λ f. F.content f) root in_root
        → Holds (λ f. F.is_honest f) (λ f. F.content f) a in_a → Holds (λ f. F.is_honest f) (λ f. F.content f) b in_b
        → ForSome in_root (λ bytes. length bytes < 2 ^ 63) → IsSound in_root in_a in_b
        → IfErr result (λ fault. ¬ IsOfLost fault) }
{
    refuse_lost(Some(&root), Some(&a), Some(&b))?;
    Ok(StoreFiles::new(root, a, b))
}

/// Refuses a store of which files have been lost.
pub(crate) fn refuse_lost<F: SystemFile>(
    root: Option<&F>,
    a: Option<&F>,
    b: Option<&F>,
) -> Result<(), FileFault>
    ensures sound { ForSome root.entry (λ f. IsTrue (F.is_honest f.now) × (length (F.content f.now) < 2 ^ 63))
        → ForSome a.entry (λ f. IsTrue (F.is_honest f.now)) → ForSome b.entry (λ f. IsTrue (F.is_honest f.now))
        → OnOk result (IsSound (option_map (λ f. F.content f.now) root.entry)
        (option_map (λ f. F.content f.now) a.entry) (option_map (λ f. F.content f.now) b.entry)) }
    ensures unsound { ForSome root.entry (λ f. IsTrue (F.is_honest f.now) × (length (F.content f.now) < 2 ^ 63))
        → ForSome a.entry (λ f. IsTrue (F.is_honest f.now)) → ForSome b.entry (λ f. IsTrue (F.is_honest f.now))
        → IfErr result (λ fault. IsOfSomeCall fault ⊎ IsUnsound (option_map (λ f. F.content f.now) root.entry)
        (option_map (λ f. F.content f.now) a.entry) (option_map (λ f. F.content f.now) b.entry) fault) }
    ensures works { ForSome root.entry (λ f. IsTrue (F.is_working f.now))
        → ForSome a.entry (λ f. IsTrue (F.is_working f.now)) → ForSome b.entry (λ f. IsTrue (F.is_working f.now))
        → IfErr result (λ fault. ¬ IsOfSomeCall fault) }
    ensures cause { IfErr result (λ fault. HasOpeningCause (λ _ _. ⊥) (λ _ _. ⊥)
        (λ extent call error. IsSomeAnd (at_extent extent root.entry a.entry b.entry) (λ f. F.fails_with f.now call error))
        (λ _. ⊥) fault) }
{
    let state = root_state(root)?;
    let a_len = area_len(a, Extent::A)?;
    let b_len = area_len(b, Extent::B)?;
    judge(state, a_len, b_len)
}

/// What is at the place of the root.
fn root_state<F: SystemFile>(root: Option<&F>) -> Result<RootState, FileFault>
    ensures state { ForSome root.entry (λ f. IsTrue (F.is_honest f.now) × (length (F.content f.now) < 2 ^ 63))
        → IfOk result (λ state. IsAtRoot (option_map (λ f. F.content f.now) root.entry) state) }
    ensures fault { IfErr result (λ fault. IsOfSomeCall fault) }
    ensures cause { IfErr result (λ fault. HasOpeningCause (λ _ _. ⊥) (λ _ _. ⊥)
        (λ of call error. (of ≡ Extent.Root) × IsSomeAnd root.entry (λ f. F.fails_with f.now call error))
        (λ _. ⊥) fault) }
    ensures works { ForSome root.entry (λ f. IsTrue (F.is_working f.now)) → IsOk result }
{
    match root {
        Some(root) => file_state(root),
        None => Ok(RootState::Absent),
    }
}

/// What a file at the place of the root is.
fn file_state<F: SystemFile>(root: &F) -> Result<RootState, FileFault>
    ensures state { IsTrue (F.is_honest root.now) → length (F.content root.now) < 2 ^ 63
        → IfOk result (λ state. IsRootFile (F.content root.now) state) }
    ensures fault { IfErr result (λ fault. IsOfSomeCall fault) }
    ensures cause { IfErr result (λ fault. HasOpeningCause (λ _ _. ⊥) (λ _ _. ⊥)
        (λ of call error. (of ≡ Extent.Root) × F.fails_with root.now call error)
        (λ _. ⊥) fault) }
    ensures works { IsTrue (F.is_working root.now) → IsOk result }
{
    let len = named(Extent::Root, FileCall::Length, root.size())?;
    if len < WHOLE_ROOT {
        return Ok(RootState::Short);
    }
    Ok(state_of(slot_at(root, 0)?, slot_at(root, 16)?))
}

/// The root slot at a place within the root.
fn slot_at<F: SystemFile>(root: &F, at: u64) -> Result<RootSlot, FileFault>
    ensures slot { IsTrue (F.is_honest root.now) → length (F.content root.now) < 2 ^ 63
        → at + 16 ≤ length (F.content root.now)
        → IfOk result (λ slot. IsSlot (take 16 (drop at (F.content root.now))) slot) }
    ensures fault { IfErr result (λ fault. IsOfSomeCall fault) }
    ensures cause { IfErr result (λ fault. HasOpeningCause (λ _ _. ⊥) (λ _ _. ⊥)
        (λ of call error. (of ≡ Extent.Root) × F.fails_with root.now call error)
        (λ _. ⊥) fault) }
    ensures works { IsTrue (F.is_working root.now) → IsOk result }
{
    let mut bytes = [0; 16];
    named(
        Extent::Root,
        FileCall::Read,
        fill_from(root, at, &mut bytes),
    )?;
    Ok(read_slot(&bytes))
}

/// The length of an area that is there.
fn area_len<F: SystemFile>(area: Option<&F>, extent: Extent) -> Result<Option<u64>, FileFault>
    ensures len { ForSome area.entry (λ f. IsTrue (F.is_honest f.now))
        → IfOk result (λ len. len ≡ option_map length (option_map (λ f. F.content f.now) area.entry)) }
    ensures fault { IfErr result (λ fault. IsOfSomeCall fault) }
    ensures cause { IfErr result (λ fault. HasOpeningCause (λ _ _. ⊥) (λ _ _. ⊥)
        (λ of call error. (of ≡ extent) × IsSomeAnd area.entry (λ f. F.fails_with f.now call error))
        (λ _. ⊥) fault) }
    ensures works { ForSome area.entry (λ f. IsTrue (F.is_working f.now)) → IsOk result }
{
    match area {
        Some(area) => Ok(Some(named(extent, FileCall::Length, area.size())?)),
        None => Ok(None),
    }
}
