//! Laws of what images stand for where the index counts, each the contract of a function that does nothing.

ghost use Rattle.std.specs.Prelude.{◌≡◌, ◌↔◌, ◌<◌, ℕ, List, [], ◌∷◌, ◌++◌, length, Option, Some, None, false, true};
ghost use Rattle.std.specs.List.{Contains};
ghost use Rattle.ax_disk.specs.model.Image.{Image};
ghost use Rattle.ax_tree.specs.declared.tree.Tree.{Tree};
ghost use Rattle.ax_tree.specs.Document.{document_id};
ghost use Rattle.ax_pair.specs.declared.pair.Pair.{Pair};
ghost use Rattle.ax_pair.specs.Order.{Rise};
ghost use Rattle.ax_delta.specs.Changes.{changed_pairs, term_changes_of};
ghost use Rattle.ax_delta.specs.Payload.{IsDelta};
ghost use Rattle.ax_delta.specs.declared.change.Change.{Change};
ghost use Rattle.ax_storable.specs.Storable.{IsStorable};
ghost use Rattle.ax_container.specs.Container.{Container, Entry, contains, entry_at, entry_of, fresh};
ghost use Rattle.ax_container.specs.Writes.{created, deleted, is_full, replaced};
ghost use Rattle.ax_area.specs.Changes.{Change as StoreChange, Delta};
ghost use Rattle.ax_area.specs.Contents.{Contents};
ghost use Rattle.ax_area.specs.Image.{IsFresh};
ghost use Rattle.ax_area.specs.Told.{Told};
ghost use Rattle.ax_pages.specs.Contents.{TermPage};
ghost use Rattle.ax_pairs.specs.Index.{AllBelong, IsIndex};
ghost use Rattle.ax_pairs.specs.PairSets.{PairSet};
ghost use Rattle.ax_keep.specs.Exchanges.{Exchanges};
ghost use Rattle.ax_keep.specs.Owned.{Owns};
ghost use Rattle.ax_image_grammar.specs.Grammar.{IsGrammatical};
ghost use Rattle.ax_image.specs.Documents.{HasDocuments};
ghost use Rattle.ax_image.specs.Readable.{newest, SaysReadable};
ghost use Rattle.ax_image.specs.StandsFor.{StandsFor};
ghost use Rattle.ax_image.specs.WriteChanges.{creating_changes, deleting_changes, replacing_changes};
ghost use Rattle.ax_image_pairs.specs.Carrying.{Carries, MakeChanges};
ghost use Rattle.ax_image_pairs.specs.Found.{HasNumber, id_pair, number_in};
ghost use Rattle.ax_image_pairs.specs.Indexed.{ContentsHoldAll, HasAll, StandsForAll};

/// An image stands for one container at most with its index.
pub fn one_container()
    ensures { (image : Image) (x y : Container) → StandsForAll image x → StandsForAll image y → x ≡ y }
{}

/// An image stands for a container with its index where it has the documents of the container and its pairs, and all that
/// it tells can be read, and nowhere else. It then stands for the container without its index, too.
pub fn an_image_stands_for_all_that_it_has()
    ensures there { (image : Image) (container : Container) → HasAll container image → SaysReadable image
        → StandsForAll image container }
    ensures all { (image : Image) (container : Container) → StandsForAll image container → HasAll container image }
    ensures readable { (image : Image) (container : Container) → StandsForAll image container → SaysReadable image }
    ensures documents { (image : Image) (container : Container) → StandsForAll image container
        → StandsFor image container }
    ensures has_documents { (image : Image) (container : Container) → HasAll container image
        → HasDocuments container image }
    ensures grammatical { (image : Image) (container : Container) (version : ℕ) (told : List Told) (contents : Contents)
        → IsGrammatical newest version told contents image → HasAll container image → StandsForAll image container }
{}

/// The image of a fresh store stands for the container of no documents, whose index has no pairs.
pub fn a_fresh_image_stands_for_fresh()
    ensures { (image : Image) → IsFresh image → StandsForAll image fresh }
{}

/// The index has the pairs of every document, under the policy by which it is indexed, and of each of its pairs there is
/// such a document: whatever set the term pages hold.
pub fn an_index_has_the_pairs_of_all_documents()
    ensures every { (contents : Contents) (container : Container) (set : PairSet) (entry : Entry) (pair : Pair)
        → ContentsHoldAll contents container → IsIndex contents.terms set
        → Contains container.entries entry → Owns entry.number entry.indexed_by (Some entry.tree) pair → set pair ≡ true }
    ensures only { (contents : Contents) (container : Container) (set : PairSet) (pair : Pair)
        → ContentsHoldAll contents container → IsIndex contents.terms set → set pair ≡ true
        → (entry : Entry) × Contains container.entries entry
        × Owns entry.number entry.indexed_by (Some entry.tree) pair }
{}

/// The pairs with a number are those of the entry that has it, under the policy by which it is indexed, and there are none
/// where no entry has it: whatever set the term pages hold.
pub fn pairs_of_a_number()
    ensures entry { (contents : Contents) (container : Container) (set : PairSet) (number : ℕ) (entry : Entry) (pair : Pair)
        → ContentsHoldAll contents container → IsIndex contents.terms set
        → entry_at number container.entries ≡ Some entry
        → ((set pair ≡ true) × (pair.number ≡ number)) ↔ Owns number entry.indexed_by (Some entry.tree) pair }
    ensures none { (contents : Contents) (container : Container) (set : PairSet) (number : ℕ) (pair : Pair)
        → ContentsHoldAll contents container → IsIndex contents.terms set
        → entry_at number container.entries ≡ None → set pair ≡ true → pair.number ≡ number → ⊥ }
{}

/// The index has the term of an id with the number of the document of that id, and with no other number. So the number
/// that a set has for an id, or that it has none, is what the container says: whatever set the term pages hold.
pub fn a_container_finds_an_id()
    ensures exact { (contents : Contents) (container : Container) (set : PairSet) (id : List ℕ) (number : ℕ)
        → ContentsHoldAll contents container → IsIndex contents.terms set
        → (set (id_pair id number) ≡ true) ↔ (number_in id container ≡ Some number) }
    ensures found { (contents : Contents) (container : Container) (set : PairSet) (id : List ℕ) (found : Option ℕ)
        → ContentsHoldAll contents container → IsIndex contents.terms set
        → HasNumber set id found → found ≡ number_in id container }
{}

/// No change makes no changes of pairs; what makes some and what makes more behind it make both together; and a delta of a
/// page, with changes of pairs that belong to the page, makes these.
pub fn deltas_make_changes()
    ensures none { (pages : List TermPage) → MakeChanges [] [] pages }
    ensures then { (one other : List Change) (first second : List StoreChange) (pages : List TermPage)
        → (made : MakeChanges one first pages) → MakeChanges other second made.after
        → MakeChanges (one ++ other) (first ++ second) pages }
    ensures delta { (pages : List TermPage) (number : ℕ) (payload : List ℕ) (changes : List Change)
        → number < length pages → Rise (changed_pairs changes) → IsDelta payload (term_changes_of changes)
        → AllBelong (changed_pairs changes) number pages → MakeChanges changes (Delta number payload ∷ []) pages }
{}

/// The changes of a creation, a replacement and a deletion, and behind them whatever makes the changes of pairs that
/// exchange those of the document as it was for those of it as it is to be, lead from contents that hold a container with
/// its index to contents that hold what the write makes of it, with its index.
pub fn a_write_carries_its_pairs()
    ensures creation { (contents : Contents) (before : Container) (tree : Tree) (id : List ℕ) (changes : List Change)
        → contents.versioned ≡ false → ContentsHoldAll contents before
        → document_id tree ≡ Some id → IsStorable tree
        → contains id before ≡ false → is_full before ≡ false
        → Exchanges (Owns before.next_number before.policy None) (Owns before.next_number before.policy (Some tree)) changes
        → Carries contents (creating_changes before.next_number contents.policy_now tree) changes (created id tree before) }
    ensures replacement { (contents : Contents) (before : Container) (tree : Tree) (id : List ℕ) (found : Entry)
        (changes : List Change)
        → contents.versioned ≡ false → ContentsHoldAll contents before
        → document_id tree ≡ Some id → IsStorable tree
        → entry_of id before ≡ Some found
        → Exchanges (Owns found.number found.indexed_by (Some found.tree)) (Owns found.number before.policy (Some tree)) changes
        → Carries contents (replacing_changes found.number contents.policy_now tree) changes (replaced id tree before) }
    ensures deletion { (contents : Contents) (before : Container) (id : List ℕ) (found : Entry) (changes : List Change)
        → ContentsHoldAll contents before → entry_of id before ≡ Some found
        → Exchanges (Owns found.number found.indexed_by (Some found.tree)) (Owns found.number before.policy None) changes
        → Carries contents (deleting_changes found.number) changes (deleted id before) }
{}
