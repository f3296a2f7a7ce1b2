//! Laws of the grammar, each the contract of a function that does nothing.

ghost use Rattle.std.specs.Prelude.{◌≡◌, ◌⊎◌, ℕ, ◌+◌, ◌<◌, ◌≤◌, true};
ghost use Rattle.std.specs.Prelude.{List, [], ◌∷◌, ◌++◌, length, Some};
ghost use Rattle.ax_disk.specs.declared.extent.Extent.{Extent};
ghost use Rattle.ax_disk.specs.declared.extent.Extent.TheVariants.{Root, A};
ghost use Rattle.ax_disk.specs.model.Image.{Image, list_of};
ghost use Rattle.ax_area.specs.declared.root.Counting.{Counting};
ghost use Rattle.ax_area.specs.declared.root.RootChoice.{RootChoice};
ghost use Rattle.ax_area.specs.declared.root.RootChoice.TheVariants.{Counts};
ghost use Rattle.ax_area.specs.Root.{IsRoot, IsClosedBeside, IsLesserBeside};
ghost use Rattle.std.specs.List.{Contains, AllByRecursion};
ghost use Rattle.ax_area.specs.Changes.{Change, Base, Delta};
ghost use Rattle.ax_area.specs.Contents.{Contents, no_contents, after_changes};
ghost use Rattle.ax_area.specs.Writing.{CanWrite, written_bytes, told_from};
ghost use Rattle.ax_area.specs.WellMade.{IsWellMade};
ghost use Rattle.ax_pages.specs.Area.{frames_bytes};
ghost use Rattle.ax_pages.specs.Contents.{TermPage};
ghost use Rattle.ax_pages.specs.AfterPart.{is_base, after_base, after_delta};
ghost use Rattle.ax_area.specs.Leading.{LeadTo};
ghost use Rattle.ax_area.specs.Places.{places_after, no_places};
ghost use Rattle.ax_area.specs.Placed.{ArePlaced};
ghost use Rattle.ax_area.specs.Sample.{sample, sample_told, spoiled_sample, broken_sample, newer_sample};
ghost use Rattle.ax_area.specs.Sample.{second_sample, twin_sample, worn_sample, mixed_sample};
ghost use Rattle.ax_area.specs.Sample.{later_sample, later_told};
ghost use Rattle.ax_area.specs.Kept.{HoldsOfAll};
ghost use Rattle.ax_area.specs.Told.{Told, changes_of, Begins, TellOn, Lead, IsSpoiled, AreSpoiled};
ghost use Rattle.ax_area.specs.Image.{IsLive, HasFrames, Says, IsNewer, IsBrokenImage, IsDamaged};

/// A root says one thing alone.
pub fn one_root()
    ensures { (root : List ℕ) (one other : RootChoice) → IsRoot root one → IsRoot root other → one ≡ other }
{}

/// Beside the root slot that counts the other one is closed, or open with a lesser generation.
pub fn the_other_slot()
    ensures { (root : List ℕ) (slot : Counting) → IsRoot root (Counts slot)
        → IsClosedBeside root slot ⊎ IsLesserBeside root slot }
{}

/// An image has one list of log frames, is broken at one place, or is of a later version: one of these, and no two. Where
/// it is broken, opening finds it damaged.
pub fn one_list_of_frames()
    ensures some { (newest : ℕ) (image : Image) → ((frames : List (List ℕ)) × HasFrames newest frames image)
        ⊎ (((extent : Extent) × (at : ℕ) × IsBrokenImage newest image extent at)
        ⊎ ((version : ℕ) × IsNewer newest version image)) }
    ensures frames { (newest : ℕ) (xs ys : List (List ℕ)) (image : Image)
        → HasFrames newest xs image → HasFrames newest ys image → xs ≡ ys }
    ensures extent { (newest : ℕ) (a b : Extent) (i j : ℕ) (image : Image)
        → IsBrokenImage newest image a i → IsBrokenImage newest image b j → a ≡ b }
    ensures place { (newest : ℕ) (a b : Extent) (i j : ℕ) (image : Image)
        → IsBrokenImage newest image a i → IsBrokenImage newest image b j → i ≡ j }
    ensures frames_not_broken { (newest : ℕ) (xs : List (List ℕ)) (a : Extent) (i : ℕ) (image : Image)
        → HasFrames newest xs image → IsBrokenImage newest image a i → ⊥ }
    ensures frames_not_newer { (newest w : ℕ) (xs : List (List ℕ)) (image : Image)
        → HasFrames newest xs image → IsNewer newest w image → ⊥ }
    ensures broken_not_newer { (newest w : ℕ) (a : Extent) (i : ℕ) (image : Image)
        → IsBrokenImage newest image a i → IsNewer newest w image → ⊥ }
    ensures damaged { (newest : ℕ) (a : Extent) (i : ℕ) (image : Image)
        → IsBrokenImage newest image a i → IsDamaged newest image a i }
{}

/// Opening finds one thing alone of an image: what it tells and the contents of that, a later version, or
/// damage at one place.
pub fn one_outcome()
    ensures version { (newest v w : ℕ) (s t : List Told) (x y : Contents) (image : Image)
        → Says newest v s x image → Says newest w t y image → v ≡ w }
    ensures told { (newest v w : ℕ) (s t : List Told) (x y : Contents) (image : Image)
        → Says newest v s x image → Says newest w t y image → s ≡ t }
    ensures contents { (newest v w : ℕ) (s t : List Told) (x y : Contents) (image : Image)
        → Says newest v s x image → Says newest w t y image → x ≡ y }
    ensures newer { (newest v w : ℕ) (image : Image) → IsNewer newest v image → IsNewer newest w image → v ≡ w }
    ensures extent { (newest : ℕ) (a b : Extent) (i j : ℕ) (image : Image)
        → IsDamaged newest image a i → IsDamaged newest image b j → a ≡ b }
    ensures place { (newest : ℕ) (a b : Extent) (i j : ℕ) (image : Image)
        → IsDamaged newest image a i → IsDamaged newest image b j → i ≡ j }
    ensures good_not_damaged { (newest v : ℕ) (s : List Told) (x : Contents) (a : Extent) (i : ℕ) (image : Image)
        → Says newest v s x image → IsDamaged newest image a i → ⊥ }
    ensures good_not_newer { (newest v w : ℕ) (s : List Told) (x : Contents) (image : Image)
        → Says newest v s x image → IsNewer newest w image → ⊥ }
    ensures damaged_not_newer { (newest w : ℕ) (a : Extent) (i : ℕ) (image : Image)
        → IsDamaged newest image a i → IsNewer newest w image → ⊥ }
{}

/// What contents hold was told: each text of a policy, each document, and each payload of a term page.
pub fn what_is_held_was_told()
    ensures { (changes : List Change) (contents : Contents) → after_changes changes no_contents ≡ Some contents
        → HoldsOfAll (Contains changes) contents }
{}

/// What is written in an area of any version says the changes that it was to say, at whatever offset it stands.
pub fn what_is_written_is_told()
    ensures bytes { (version at : ℕ) (changes : List Change) → 1 ≤ version → AllByRecursion (CanWrite version) changes
        → Begins version (written_bytes changes) at (told_from at changes) [] }
    ensures changes { (at : ℕ) (changes : List Change) → changes_of (told_from at changes) ≡ changes }
{}

/// Contents to which changes lead from nothing are well made.
pub fn contents_are_well_made()
    ensures { (changes : List Change) (contents : Contents)
        → after_changes changes no_contents ≡ Some contents → IsWellMade contents }
{}

/// Where a frame stands more behind those of the area that counts, what it tells is told more.
pub fn a_frame_more()
    ensures { (newest : ℕ) (slot : Counting) (frames : List (List ℕ)) (span : List ℕ) (told more : List Told)
        (before after : Contents) (new : Image)
        → TellOn slot.version frames 0 told → Lead told no_contents before
        → Begins slot.version span (length (frames_bytes frames) + 9) more [] → Lead more before after
        → IsLive newest slot (frames ++ span ∷ []) new → Says newest slot.version (told ++ more) after new }
{}

/// What an area tells in one version it tells in each later one: a store is raised by its slot alone.
pub fn a_later_slot_says_the_same()
    ensures { (newest : ℕ) (old new : Counting) (frames : List (List ℕ)) (told : List Told) (contents : Contents)
        (image : Image)
        → old.version ≤ new.version → TellOn old.version frames 0 told → Lead told no_contents contents
        → IsLive newest new frames image → Says newest new.version told contents image }
{}

/// Changes of term pages that lead one behind another lead together; a delta of a page that is there leads, and so
/// does a base within the format.
pub fn changes_of_term_pages()
    ensures then { (first second : List Change) (before between after : List TermPage)
        → LeadTo first before between → LeadTo second between after → LeadTo (first ++ second) before after }
    ensures delta { (pages : List TermPage) (number : ℕ) (payload : List ℕ) → number < length pages
        → LeadTo (Delta number payload ∷ []) pages (after_delta number payload pages) }
    ensures base { (pages : List TermPage) (number : ℕ) (payload : List ℕ) → is_base number payload pages ≡ true
        → LeadTo (Base number payload ∷ []) pages (after_base number payload pages) }
{}

/// At the places of the parts that count stand the texts and payloads of the contents.
pub fn what_is_told_is_placed()
    ensures { (newest : ℕ) (slot : Counting) (frames : List (List ℕ)) (told : List Told) (contents : Contents)
        (image : Image)
        → IsLive newest slot frames image → TellOn slot.version frames 0 told → Lead told no_contents contents
        → ArePlaced (list_of slot.area image) contents (places_after told no_places) }
{}

/// Opening finds something of every image: what it tells and the contents of that, a later version, or damage at a
/// place.
pub fn some_outcome()
    ensures { (newest : ℕ) (image : Image)
        → ((version : ℕ) × (told : List Told) × (contents : Contents) × Says newest version told contents image)
        ⊎ (((version : ℕ) × IsNewer newest version image)
        ⊎ ((extent : Extent) × (at : ℕ) × IsDamaged newest image extent at)) }
{}

/// The example of the format, worked out by hand, says what it should; with another kind of its first part it is
/// spoiled there.
pub fn the_example()
    ensures says { (contents : Contents) → Lead sample_told no_contents contents
        → Says 1 1 sample_told contents sample }
    ensures leads { (contents : Contents) × Lead sample_told no_contents contents }
    ensures spoiled { IsDamaged 1 spoiled_sample A 9 }
{}

/// Images worked out by hand: a frame that is broken goes before a part that is spoiled; a later version goes before
/// anything in the areas; of two open slots the one of the greater generation counts, of one generation neither;
/// an older slot of the last generation is damage; what says no version is refused behind what
/// says one; and an area of version 2 tells its versions.
pub fn worked_images()
    ensures broken { IsDamaged 1 broken_sample A 63 }
    ensures newer { IsNewer 1 2 newer_sample }
    ensures second { Says 1 1 [] no_contents second_sample }
    ensures twin { IsDamaged 1 twin_sample Root 16 }
    ensures worn { IsDamaged 2 worn_sample Root 0 }
    ensures mixed { IsDamaged 2 mixed_sample A 37 }
    ensures later { (contents : Contents)
        × Says 2 2 later_told contents later_sample × (contents.next_version ≡ 8) }
{}
