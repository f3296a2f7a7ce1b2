//! Laws of the definitions, each the contract of a function that does nothing.
ghost use Rattle.std.specs.Prelude.{◌≡◌, ◌&&◌, ℕ, List, [], Some, true};
ghost use Rattle.std.specs.List.{Contains, IsDistinct};
ghost use Rattle.ax_tree.specs.WellFormed.{IsWellFormed};
ghost use Rattle.ax_tree.specs.declared.tree.Tree.{Tree};
ghost use Rattle.ax_mean.specs.Meaning.{Env, bound};
ghost use Rattle.ax_mean.specs.Rows.{passes};
ghost use Rattle.ax_mean.specs.declared.query.Query.{Query};
ghost use Rattle.ax_mean.specs.declared.value.Value.TheVariants.{Defined};
ghost use Rattle.ax_term.specs.declared.range.TermRange.{TermRange};
ghost use Rattle.ax_policy.specs.Table.{Table};
ghost use Rattle.ax_policy.specs.declared.policy.Policy.{Policy};
ghost use Rattle.ax_atoms.specs.Atoms.{Atom};
ghost use Rattle.ax_atoms.specs.Conjuncts.{atoms, document_alias};
ghost use Rattle.ax_atoms.specs.Silent.{IsSilent};
ghost use Rattle.ax_atoms.specs.Spans.{is_in_some};
ghost use Rattle.ax_plan.specs.Combining.{are_combined, put_all, shared};
ghost use Rattle.ax_plan.specs.Taken.{IsTaken};
ghost use Rattle.ax_plan.specs.Terms.{HasTermForEach, HasTermInEach, HasUnion, IsOfUsable};
ghost use Rattle.ax_plan.specs.Usable.{AreUnions, IsUsable};
ghost use Rattle.ax_plan.specs.declared.sought.Sought.{Sought};

/// A term is in what two unions of ranges share exactly where it is in both.
pub fn what_unions_share_has_the_terms_in_both()
    ensures { (ranges : List TermRange) (others : List TermRange) (bytes : List ℕ)
        → is_in_some (shared ranges others) bytes ≡ (is_in_some ranges bytes && is_in_some others bytes) }
{}

/// Of what is left when all is combined no two can be combined any more, whichever of the two is asked first.
pub fn what_is_left_can_be_combined_no_more()
    ensures apart { (sought : List Sought) → IsDistinct are_combined (put_all [] sought) }
    ensures either_order { (one : Sought) (other : Sought) → are_combined one other ≡ are_combined other one }
{}

/// Each union of a plan is within the ranges of a usable condition, and each usable condition has a union within its ranges.
pub fn unions_are_within_the_usable_conditions()
    ensures of_usable { (query : Query) (table : Table) (unions : List (List TermRange))
        → AreUnions table (atoms query) unions
        → (ranges : List TermRange) → Contains unions ranges → IsOfUsable table (atoms query) ranges }
    ensures each { (query : Query) (table : Table) (unions : List (List TermRange))
        → AreUnions table (atoms query) unions
        → (atom : Atom) → Contains (atoms query) (Some atom) → IsUsable table atom → HasUnion unions atom }
{}

/// A document that has a term in each union has one in the ranges of each usable condition, and one that is well-formed the
/// other way round too: that conditions on one property are answered together leaves out no document that each of them leaves.
pub fn unions_have_the_terms_of_their_conditions()
    ensures for_each { (query : Query) (table : Table) (unions : List (List TermRange)) (policy : Policy) (given : Tree)
        → AreUnions table (atoms query) unions
        → HasTermInEach policy given unions → HasTermForEach table (atoms query) policy given }
    ensures in_each { (query : Query) (table : Table) (unions : List (List TermRange)) (policy : Policy) (given : Tree)
        → AreUnions table (atoms query) unions → IsWellFormed given
        → HasTermForEach table (atoms query) policy given → HasTermInEach policy given unions }
{}

/// A document of which WHERE is true, with the alias of the first source standing for it, has a term in each union,
/// under whichever policy it was indexed that is in use or now.
pub fn a_passing_document_has_a_term_in_each_union()
    ensures { (query : Query) (table : Table) (unions : List (List TermRange)) (policy : Policy) (given : Tree)
        (alias : List ℕ) (env : Env)
        → AreUnions table (atoms query) unions → IsTaken table policy → IsWellFormed given
        → document_alias query.froms ≡ Some alias → bound env alias ≡ Defined given
        → passes query.condition env ≡ true → HasTermInEach policy given unions }
{}

/// So a document that has not such a term in each union has no rows in the query.
pub fn a_document_without_a_term_in_each_union_has_no_rows()
    ensures { (query : Query) (table : Table) (unions : List (List TermRange)) (policy : Policy) (given : Tree)
        → AreUnions table (atoms query) unions → IsTaken table policy → IsWellFormed given
        → (HasTermInEach policy given unions → ⊥) → IsSilent query given }
{}
