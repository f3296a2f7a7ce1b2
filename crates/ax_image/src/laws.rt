//! Laws of what images stand for, each the contract of a function that does nothing.

ghost use Rattle.std.specs.Prelude.{◌≡◌, List, ℕ, false, Some};
ghost use Rattle.ax_disk.specs.declared.extent.Extent.{Extent};
ghost use Rattle.ax_disk.specs.model.Image.{Image};
ghost use Rattle.ax_tree.specs.declared.tree.Tree.{Tree};
ghost use Rattle.ax_tree.specs.Document.{document_id};
ghost use Rattle.ax_container.specs.Container.{Container, Entry, contains, entry_of, fresh};
ghost use Rattle.ax_container.specs.Writes.{created, deleted, is_full, replaced};
ghost use Rattle.ax_area.specs.Contents.{Contents};
ghost use Rattle.ax_area.specs.Image.{IsFresh};
ghost use Rattle.ax_area.specs.Told.{Told};
ghost use Rattle.ax_storable.specs.Storable.{IsStorable};
ghost use Rattle.ax_image_grammar.specs.Grammar.{IsGrammatical, IsOutside};
ghost use Rattle.ax_image_grammar.specs.Rows.{text_row, policy_row, delta_row, superseded_row};
ghost use Rattle.ax_image.specs.Documents.{ContentsHold, HasDocuments, LeadsTo};
ghost use Rattle.ax_image.specs.Readable.{newest, SaysReadable};
ghost use Rattle.ax_image.specs.StandsFor.{StandsFor};
ghost use Rattle.ax_image.specs.WriteChanges.{creating_changes, deleting_changes, replacing_changes};

/// An image stands for one container at most.
pub fn one_container()
    ensures { (image : Image) (x y : Container) → StandsFor image x → StandsFor image y → x ≡ y }
{}

/// The image of a fresh store stands for the container of no documents.
pub fn fresh_image_stands_for_fresh()
    ensures { (image : Image) → IsFresh image → StandsFor image fresh }
{}

/// An image stands for a container where it has the documents of the container, and all that it tells can be read, and
/// nowhere else.
pub fn an_image_stands_for_its_documents()
    ensures there { (image : Image) (container : Container) → HasDocuments container image → SaysReadable image
        → StandsFor image container }
    ensures documents { (image : Image) (container : Container) → StandsFor image container
        → HasDocuments container image }
    ensures readable { (image : Image) (container : Container) → StandsFor image container → SaysReadable image }
{}

/// An image in the grammar that has the documents of a container stands for it.
pub fn an_image_in_the_grammar_stands_for_its_documents()
    ensures { (image : Image) (container : Container) (version : ℕ) (told : List Told) (contents : Contents)
        → IsGrammatical newest version told contents image → HasDocuments container image → StandsFor image container }
{}

/// An image that stands for a container is outside the grammar nowhere.
pub fn an_image_that_stands_is_outside_nowhere()
    ensures { (image : Image) (container : Container) (area : Extent) (at : ℕ)
        → StandsFor image container → IsOutside newest area at image → ⊥ }
{}

/// Images worked out by hand stand for no container: one that tells the text of a document that is gone and is no
/// JSON, one that tells the text of a policy that is none and no document is indexed by, and one that tells a delta of
/// no term, also where a base took its place.
pub fn worked_images_stand_for_nothing()
    ensures text { (container : Container) → StandsFor text_row container → ⊥ }
    ensures policy { (container : Container) → StandsFor policy_row container → ⊥ }
    ensures delta { (container : Container) → StandsFor delta_row container → ⊥ }
    ensures superseded { (container : Container) → StandsFor superseded_row container → ⊥ }
{}

/// The changes of a creation, a replacement and a deletion lead from contents that hold a container to contents that
/// hold what the write makes of it. A document is written where nothing says a version.
pub fn a_write_is_written_by_its_changes()
    ensures creation { (contents : Contents) (before : Container) (tree : Tree) (id : List ℕ)
        → contents.versioned ≡ false → ContentsHold contents before
        → document_id tree ≡ Some id → IsStorable tree
        → contains id before ≡ false → is_full before ≡ false
        → LeadsTo contents (creating_changes before.next_number contents.policy_now tree) (created id tree before) }
    ensures replacement { (contents : Contents) (before : Container) (tree : Tree) (id : List ℕ) (found : Entry)
        → contents.versioned ≡ false → ContentsHold contents before
        → document_id tree ≡ Some id → IsStorable tree
        → entry_of id before ≡ Some found
        → LeadsTo contents (replacing_changes found.number contents.policy_now tree) (replaced id tree before) }
    ensures deletion { (contents : Contents) (before : Container) (id : List ℕ) (found : Entry)
        → ContentsHold contents before → entry_of id before ≡ Some found
        → LeadsTo contents (deleting_changes found.number) (deleted id before) }
{}
