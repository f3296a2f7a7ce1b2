//! Laws of pages and of the set that they hold.

ghost use Rattle.std.specs.Prelude.{◌≡◌, ℕ, ◌<◌, ◌∷◌, [], List, false, length};
ghost use Rattle.ax_pair.specs.declared.pair.Pair.{Pair};
ghost use Rattle.ax_pair.specs.Order.{Rise};
ghost use Rattle.ax_delta.specs.declared.change.Change.{Change};
ghost use Rattle.ax_delta.specs.Changes.{changed_pairs, term_changes_of};
ghost use Rattle.ax_delta.specs.Payload.{IsDelta};
ghost use Rattle.ax_delta.specs.Said.{said_by};
ghost use Rattle.ax_pages.specs.AfterPart.{after_delta};
ghost use Rattle.ax_pages.specs.Contents.{TermPage, no_term_page};
ghost use Rattle.ax_pages.specs.TermPages.{AreApart, IsPageOf};
ghost use Rattle.ax_pairs.specs.Index.{AllBelong, IsIndex};
ghost use Rattle.ax_pairs.specs.PagePairs.{HasPairs};
ghost use Rattle.ax_pairs.specs.PairSets.{PairSet, with_changes};
ghost use Rattle.std.specs.Option.{unwrap_or};

/// A term page has one list of pairs alone, and they rise.
pub fn a_page_has_one_list()
    ensures same { (page : TermPage) (a b : List Pair) → HasPairs page a → HasPairs page b → a ≡ b }
    ensures rises { (page : TermPage) (pairs : List Pair) → HasPairs page pairs → Rise pairs }
{}

/// Where pages are told apart by their low pairs, each pair belongs to one of them, and to no other.
pub fn a_pair_belongs_to_one_page()
    ensures somewhere { (pages : List TermPage) (p : Pair) → AreApart pages → (number : ℕ) × IsPageOf p number pages }
    ensures same { (pages : List TermPage) (p : Pair) (m n : ℕ) → AreApart pages → IsPageOf p m pages → IsPageOf p n pages → m ≡ n }
{}

/// Term pages hold one set alone.
pub fn pages_hold_one_set()
    ensures { (pages : List TermPage) (a b : PairSet) → IsIndex pages a → IsIndex pages b → (p : Pair) → a p ≡ b p }
{}

/// The page that a store begins with holds the empty set.
pub fn the_first_page_holds_nothing()
    ensures { IsIndex (no_term_page ∷ []) (λ p. false) }
{}

/// Rising changes make of a set what the change of each pair says, and leave a pair of which there is
/// none as it was.
pub fn changes_say_what_they_make()
    ensures { (changes : List Change) (set : PairSet) (p : Pair) → Rise (changed_pairs changes)
        → with_changes changes set p ≡ unwrap_or (said_by p changes) (set p) }
{}

/// A delta of a page, with changes of pairs that belong to the page, makes these changes in the set.
pub fn a_delta_makes_its_changes()
    ensures { (pages : List TermPage) (set : PairSet) (number : ℕ) (payload : List ℕ) (changes : List Change)
        → IsIndex pages set → number < length pages → Rise (changed_pairs changes)
        → IsDelta payload (term_changes_of changes) → AllBelong (changed_pairs changes) number pages
        → IsIndex (after_delta number payload pages) (with_changes changes set) }
{}
