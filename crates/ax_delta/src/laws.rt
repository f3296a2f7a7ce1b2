//! Laws of the format and of merging: what holds of the definitions themselves, whichever call reads
//! or writes.

ghost use Rattle.std.specs.Prelude.{◌≡◌, ℕ, List};
ghost use Rattle.std.specs.Option.{unwrap_or};
ghost use Rattle.ax_pair.specs.declared.pair.Pair.{Pair};
ghost use Rattle.ax_pair.specs.Order.{Rise};
ghost use Rattle.ax_delta.specs.declared.change.Change.{Change};
ghost use Rattle.ax_delta.specs.Changes.{TermChange, changed_pairs, changes_of, term_changes_of};
ghost use Rattle.ax_delta.specs.Merge.{AreMerged};
ghost use Rattle.ax_delta.specs.Payload.{IsDelta};
ghost use Rattle.ax_delta.specs.Said.{has, last_said, said_by, said_of};

/// A payload is that of one list of term changes alone.
pub fn payload_is_of_one()
    ensures { (bytes : List ℕ) (a b : List TermChange) → IsDelta bytes a → IsDelta bytes b → a ≡ b }
{}

/// The term changes of rising changes hold these changes, in order.
pub fn term_changes_hold_the_changes()
    ensures { (changes : List Change) → Rise (changed_pairs changes) → changes_of (term_changes_of changes) ≡ changes }
{}

/// The term changes of rising changes say of a pair what the change of that pair says, and nothing
/// where there is none.
pub fn term_changes_say_what_changes_say()
    ensures { (changes : List Change) (p : Pair) → Rise (changed_pairs changes) → said_of p (term_changes_of changes) ≡ said_by p changes }
{}

/// Two rising lists with the same pairs are the same list: so a merge has one answer.
pub fn pairs_make_the_list()
    ensures { (a b : List Pair) → Rise a → Rise b → ((p : Pair) → has p a ≡ has p b) → a ≡ b }
{}

/// After a merge with one delta after another, the oldest first, the pairs rise, and of each pair
/// the newest delta that says something of it counts, or else what was there before all.
pub fn the_newest_that_says_something_counts()
    ensures rises { (base after : List Pair) (deltas : List (List TermChange)) → Rise base → AreMerged base deltas after → Rise after }
    ensures holds { (base after : List Pair) (deltas : List (List TermChange)) (p : Pair) → AreMerged base deltas after
        → has p after ≡ unwrap_or (last_said p deltas) (has p base) }
{}
