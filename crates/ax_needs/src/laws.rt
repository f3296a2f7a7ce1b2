//! Laws of the definitions, each the contract of a function that does nothing.
ghost use Rattle.std.specs.Prelude.{◌≡◌, ◌↔◌, ℕ, List, true, Option, Some};
ghost use Rattle.std.specs.List.{Contains};
ghost use Rattle.ax_tree.specs.declared.tree.Tree.{Tree};
ghost use Rattle.ax_term.specs.declared.range.TermRange.{TermRange};
ghost use Rattle.ax_policy.specs.declared.policy.Policy.{Policy};
ghost use Rattle.ax_terms.specs.TermsOf.{HasTerm};
ghost use Rattle.ax_atoms.specs.Atoms.{Atom};
ghost use Rattle.ax_atoms.specs.Passing.{IsCovered};
ghost use Rattle.ax_atoms.specs.Spans.{is_in_some, ranges_of};
ghost use Rattle.ax_container.specs.Container.{Container, Entry};
ghost use Rattle.ax_needs.specs.Needs.{covers_all_of, has_term_in, is_candidate, is_usable, policies_of, unions_of};
ghost use Rattle.ax_needs.specs.Read.{AreRead, IsRead};

/// A policy covers all on which a condition rests where the test tells so, and the test tells so of each policy that was
/// read.
pub fn a_condition_is_covered_where_it_is_told()
    ensures covered { (policy : Policy) (atom : Atom) → covers_all_of policy atom ≡ true → IsCovered policy atom }
    ensures told { (policy : Policy) (atom : Atom) → IsRead policy → IsCovered policy atom
        → covers_all_of policy atom ≡ true }
{}

/// A condition is usable exactly where the policy now covers all on which it rests, and each by which a document is
/// indexed.
pub fn a_condition_is_usable_where_all_policies_cover_it()
    ensures covered { (container : Container) (atom : Atom) → is_usable container atom ≡ true
        → (policy : Policy) → Contains (policies_of container) policy → IsCovered policy atom }
    ensures told { (container : Container) (atom : Atom) → AreRead container
        → ((policy : Policy) → Contains (policies_of container) policy → IsCovered policy atom)
        → is_usable container atom ≡ true }
{}

/// The unions are those of the usable conditions, and of no others.
pub fn unions_are_of_exactly_the_usable_conditions()
    ensures { (container : Container) (atoms : List (Option Atom)) (ranges : List TermRange)
        → Contains (unions_of container atoms) ranges
        ↔ ((atom : Atom) × Contains atoms (Some atom) × (is_usable container atom ≡ true) × (ranges ≡ ranges_of atom)) }
{}

/// A document has a term in one of the ranges exactly where the test tells so.
pub fn a_document_has_a_term_where_it_is_told()
    ensures { (policy : Policy) (given : Tree) (ranges : List TermRange)
        → (has_term_in policy given ranges ≡ true)
        ↔ ((bytes : List ℕ) × HasTerm policy given bytes × (is_in_some ranges bytes ≡ true)) }
{}

/// A document is a candidate exactly where it has a term in each union, under the policy by which it is indexed.
pub fn a_candidate_has_a_term_in_each_union()
    ensures { (unions : List (List TermRange)) (entry : Entry)
        → (is_candidate unions entry ≡ true)
        ↔ ((ranges : List TermRange) → Contains unions ranges
        → (bytes : List ℕ) × HasTerm entry.indexed_by entry.tree bytes × (is_in_some ranges bytes ≡ true)) }
{}
