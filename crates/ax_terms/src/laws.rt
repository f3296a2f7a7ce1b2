//! Laws of the definitions, each the contract of a function that does nothing.
ghost use Rattle.std.specs.Prelude.{◌≡◌, ◌↔◌, ℕ, List};
ghost use Rattle.ax_tree.specs.declared.members.Member.{Member};
ghost use Rattle.ax_tree.specs.declared.tree.Tree as tree;
ghost use Rattle.ax_tree.specs.declared.tree.Tree.{Tree};
ghost use Rattle.ax_policy.specs.declared.policy.Policy.{Policy};
ghost use Rattle.ax_terms.specs.Counts.{term_count};
ghost use Rattle.ax_terms.specs.SameLeaves.{HasItemsOf, HasMembersOf, HaveSameLeaves};
ghost use Rattle.ax_terms.specs.TermsOf.{HasPlain};

/// The order of a map's members is no matter to its leaves, at any depth.
pub fn members_in_any_order()
    ensures { (a b : List (Member Tree)) → HasMembersOf a b → HasMembersOf b a
        → HaveSameLeaves (tree.Object a) (tree.Object b) }
{}

/// Nor is the order of a list's elements, or how often one stands there.
pub fn items_in_any_order()
    ensures { (a b : List Tree) → HasItemsOf a b → HasItemsOf b a
        → HaveSameLeaves (tree.List a) (tree.List b) }
{}

/// Trees that have the same leaves have the same terms of leaves, and as many.
pub fn same_leaves_have_the_same_terms()
    ensures terms { (policy : Policy) (a b : Tree) → HaveSameLeaves a b → (bytes : List ℕ)
        → HasPlain policy a bytes ↔ HasPlain policy b bytes }
    ensures counts { (a b : Tree) → HaveSameLeaves a b → term_count a ≡ term_count b }
{}
