//! Laws of the definitions, each the contract of a function that does nothing.
ghost use Rattle.std.specs.Prelude.{◌≡◌, ◌<◌, ◌≤◌, ◌==◌, ◌-◌, ℕ, List, length, map, Some, None, Ok, Err, false, true, option_map, IfSome, if◌then◌else◌};
ghost use Rattle.std.specs.Str.{bytes_eq};
ghost use Rattle.ax_tree.specs.declared.tree.Tree.{Tree};
ghost use Rattle.ax_tree.specs.Document.{document_id};
ghost use Rattle.ax_storable.specs.Storable.{IsStorable};
ghost use Rattle.ax_policy.specs.declared.policy.Policy.{Policy};
ghost use Rattle.ax_container.specs.Container.{Container, Entry, IsSound, contains, fresh, entry_at, entry_of, tree_of};
ghost use Rattle.ax_container.specs.Writes.{Absent, Conflict, Full, created, deleted, exchanged, inserted, is_full, new_entry};
ghost use Rattle.ax_container.specs.Writes.{removed, replaced, rewritten, upserted};
ghost use Rattle.ax_container.specs.Reindexing.{Policies, but_policy, left, most_others, others_in_use, repoliced, stepped, with_policy};

/// A container of no documents is sound.
pub fn a_fresh_container_is_sound()
    ensures { IsSound fresh }
{}

/// A write of a document that a store can hold keeps what holds of every container: numbers that
/// rise and are never given twice, distinct ids, and each tree a document of its entry's id. A creation
/// does where the id is not held and the container is not full, which an insertion and an upsert see to.
pub fn a_write_keeps_soundness()
    ensures upsert { (before after : Container) (tree : Tree) (id : List ℕ) → document_id tree ≡ Some id
        → IsStorable tree → IsSound before → upserted id tree before ≡ Ok after → IsSound after }
    ensures insertion { (before after : Container) (tree : Tree) (id : List ℕ) → document_id tree ≡ Some id
        → IsStorable tree → IsSound before → inserted id tree before ≡ Ok after → IsSound after }
    ensures exchange { (before after : Container) (tree : Tree) (id : List ℕ) → document_id tree ≡ Some id
        → IsStorable tree → IsSound before → exchanged id tree before ≡ Ok after → IsSound after }
    ensures removal { (before after : Container) (id : List ℕ)
        → IsSound before → removed id before ≡ Ok after → IsSound after }
    ensures creation { (before : Container) (tree : Tree) (id : List ℕ) → document_id tree ≡ Some id
        → IsStorable tree → contains id before ≡ false → is_full before ≡ false
        → IsSound before → IsSound (created id tree before) }
    ensures replacement { (before : Container) (tree : Tree) (id : List ℕ) → document_id tree ≡ Some id
        → IsStorable tree → IsSound before → IsSound (replaced id tree before) }
    ensures deletion { (before : Container) (id : List ℕ) → IsSound before → IsSound (deleted id before) }
{}

/// A replacement and a deletion of an id that is not held change nothing.
pub fn an_absent_id_is_not_written()
    ensures replacement { (before : Container) (tree : Tree) (id : List ℕ) → contains id before ≡ false
        → replaced id tree before ≡ before }
    ensures deletion { (before : Container) (id : List ℕ) → contains id before ≡ false → deleted id before ≡ before }
{}

/// So do another policy now, and a step of the transformation.
pub fn another_policy_keeps_soundness()
    ensures policy { (before : Container) (policy : Policy) → IsSound before → IsSound (with_policy policy before) }
    ensures change { (before after : Container) (policy : Policy) → IsSound before → repoliced policy before ≡ Ok after
        → (after ≡ with_policy policy before) × IsSound after }
    ensures step { (before : Container) (count : ℕ) → IsSound before → IsSound (stepped count before) }
{}

/// Another policy is refused exactly where documents are indexed by eight others.
pub fn a_policy_is_refused_where_eight_others_are_in_use()
    ensures refused { (before : Container) (policy : Policy) → most_others ≤ length (others_in_use policy before)
        → repoliced policy before ≡ Err Policies }
    ensures made { (before : Container) (policy : Policy) → length (others_in_use policy before) < most_others
        → repoliced policy before ≡ Ok (with_policy policy before) }
{}

/// A step moves as many documents as it is asked for, or all that are left; of none it changes more than the
/// policy by which it is indexed.
pub fn a_step_moves_documents()
    ensures left { (before : Container) (count : ℕ) → left (stepped count before) ≡ left before - count }
    ensures kept { (before : Container) (count : ℕ)
        → map but_policy (stepped count before).entries ≡ map but_policy before.entries }
{}

/// After an upsert the container has the tree under its id, indexed by the policy now; the document's
/// number is the one that it had before, if there was one; and every other document is as before.
pub fn an_upsert_sets_one_document()
    ensures one { (before after : Container) (tree : Tree) (id : List ℕ)
        → upserted id tree before ≡ Ok after → tree_of id after ≡ Some tree }
    ensures indexed { (before after : Container) (tree : Tree) (id : List ℕ)
        → upserted id tree before ≡ Ok after
        → option_map (λ entry. entry.indexed_by) (entry_of id after) ≡ Some before.policy }
    ensures number { (before after : Container) (tree : Tree) (id : List ℕ)
        → upserted id tree before ≡ Ok after → IfSome (entry_of id before) (λ entry.
        option_map (λ entry. entry.number) (entry_of id after) ≡ Some entry.number) }
    ensures others { (before after : Container) (tree : Tree) (id other : List ℕ)
        → upserted id tree before ≡ Ok after
        → bytes_eq id other ≡ false → entry_of other after ≡ entry_of other before }
{}

/// Each write is refused exactly where it must be: a creation for an id that is held, and else where the
/// container is full; a replacement and a deletion for an id that is not held; an upsert of an id that is not
/// held where the container is full.
pub fn a_write_is_refused_for_a_cause()
    ensures conflict { (before : Container) (tree : Tree) (id : List ℕ) → contains id before ≡ true
        → inserted id tree before ≡ Err Conflict }
    ensures full { (before : Container) (tree : Tree) (id : List ℕ) → contains id before ≡ false
        → is_full before ≡ true
        → (inserted id tree before ≡ Err Full) × (upserted id tree before ≡ Err Full) }
    ensures created { (before : Container) (tree : Tree) (id : List ℕ) → contains id before ≡ false
        → is_full before ≡ false
        → (inserted id tree before ≡ Ok (created id tree before)) × (upserted id tree before ≡ Ok (created id tree before)) }
    ensures absent { (before : Container) (tree : Tree) (id : List ℕ) → contains id before ≡ false
        → (exchanged id tree before ≡ Err Absent) × (removed id before ≡ Err Absent) }
    ensures held { (before : Container) (tree : Tree) (id : List ℕ) → contains id before ≡ true
        → (exchanged id tree before ≡ Ok (replaced id tree before)) × (upserted id tree before ≡ Ok (replaced id tree before))
        × (removed id before ≡ Ok (deleted id before)) }
{}

/// By numbers: a creation puts its entry at the next number, a replacement gives the entry of the id's
/// number the tree and the policy now, a deletion takes that entry away, and at every other number all is
/// as before.
pub fn a_write_is_at_one_number()
    ensures creation { (before : Container) (tree : Tree) (id : List ℕ) (number : ℕ) → IsSound before
        → entry_at number (created id tree before).entries
        ≡ (if before.next_number == number then Some (new_entry id tree before) else entry_at number before.entries) }
    ensures replacement { (before : Container) (tree : Tree) (id : List ℕ) (found : Entry) (number : ℕ) → IsSound before
        → entry_of id before ≡ Some found
        → entry_at number (replaced id tree before).entries
        ≡ (if found.number == number then Some (rewritten tree before.policy found) else entry_at number before.entries) }
    ensures deletion { (before : Container) (id : List ℕ) (found : Entry) (number : ℕ) → IsSound before
        → entry_of id before ≡ Some found
        → entry_at number (deleted id before).entries
        ≡ (if found.number == number then None else entry_at number before.entries) }
    ensures found { (before : Container) (id : List ℕ) (found : Entry) → IsSound before
        → entry_of id before ≡ Some found → entry_at found.number before.entries ≡ Some found }
{}
