//! Laws of the definitions, each the contract of a function that does nothing.
ghost use Rattle.std.specs.Prelude.{◌≡◌, ◌↔◌, ℕ, List, Some, true};
ghost use Rattle.std.specs.List.{Contains};
ghost use Rattle.ax_tree.specs.WellFormed.{NumbersFit};
ghost use Rattle.ax_tree.specs.declared.tree.Tree.{Tree};
ghost use Rattle.ax_mean.specs.Meaning.{Env, bound};
ghost use Rattle.ax_mean.specs.declared.expr.Expr.{Expr};
ghost use Rattle.ax_mean.specs.declared.query.Query.{Query};
ghost use Rattle.ax_mean.specs.declared.query.Step.{Step};
ghost use Rattle.ax_mean.specs.declared.value.Value.TheVariants.{Defined};
ghost use Rattle.ax_term.specs.CutValues.{CutValue, cut_of};
ghost use Rattle.ax_term.specs.Fitting.{IsValue};
ghost use Rattle.ax_term.specs.TermBytes.{term_bytes};
ghost use Rattle.ax_term.specs.Terms.{Term};
ghost use Rattle.ax_policy.specs.declared.policy.Policy.{Policy};
ghost use Rattle.ax_terms.specs.Leaves.{Leaf};
ghost use Rattle.ax_terms.specs.TermsOf.{leaf_term};
ghost use Rattle.ax_atoms.specs.Atoms.{Atom};
ghost use Rattle.ax_atoms.specs.Conjuncts.{atoms};
ghost use Rattle.ax_atoms.specs.KeptWhole.{HasKeptWhole, IsKeptWhole, passes};
ghost use Rattle.ax_atoms.specs.Operands.{operands};
ghost use Rattle.ax_atoms.specs.Passing.{HasLeaf, HasTermIn, IsCovered, RestsOn, are_true, is_true};
ghost use Rattle.ax_atoms.specs.Recognised.{recognised};
ghost use Rattle.ax_atoms.specs.Silent.{IsSilent};
ghost use Rattle.ax_atoms.specs.Spans.{is_in_some, ranges_of};
ghost use Rattle.ax_atoms.specs.Wanted.{IsWanted};

/// A condition is true exactly where each of the operands is into which it falls.
pub fn a_condition_is_true_where_its_operands_are()
    ensures { (env : Env) (x : Expr) → is_true env x ≡ are_true env (operands x) }
{}

/// The ranges of a recognised condition have exactly the terms that it asks for.
pub fn ranges_have_exactly_the_wanted_terms()
    ensures { (alias : List ℕ) (x : Expr) (atom : Atom) → recognised alias x ≡ Some atom
        → (path : List Step) (value : CutValue) → IsValue value
        → (is_in_some (ranges_of atom) (term_bytes (Term.Plain path value)) ≡ true)
        ↔ IsWanted atom path value }
{}

/// So where terms keep its constants whole the ranges have, of leaves that terms keep whole, those on
/// which the condition rests and which pass it.
pub fn ranges_have_exactly_the_passing_leaves()
    ensures { (alias : List ℕ) (x : Expr) (atom : Atom) → recognised alias x ≡ Some atom
        → HasKeptWhole atom → (leaf : Leaf) → IsKeptWhole (Defined leaf.tree)
        → IsValue (cut_of (Defined leaf.tree))
        → (is_in_some (ranges_of atom) (leaf_term leaf) ≡ true)
        ↔ (RestsOn atom leaf.path × (passes atom (Defined leaf.tree) ≡ true)) }
{}

/// A document of which a recognised condition is true has a leaf on which the condition rests, with a
/// term in its ranges.
pub fn a_passing_document_has_a_leaf()
    ensures { (env : Env) (alias : List ℕ) (given : Tree) (x : Expr) (atom : Atom)
        → bound env alias ≡ Defined given → NumbersFit given → recognised alias x ≡ Some atom
        → is_true env x ≡ true → HasLeaf atom given }
{}

/// So under a policy that covers the leaves on which the condition rests it has a term in the ranges.
pub fn a_passing_document_has_a_term()
    ensures { (policy : Policy) (env : Env) (alias : List ℕ) (given : Tree) (x : Expr) (atom : Atom)
        → bound env alias ≡ Defined given → NumbersFit given → recognised alias x ≡ Some atom
        → is_true env x ≡ true → IsCovered policy atom → HasTermIn policy atom given }
{}

/// A document that has not such a leaf for each of a query's recognised conditions has no rows in it.
pub fn a_document_without_a_leaf_has_no_rows()
    ensures { (query : Query) (given : Tree) → NumbersFit given
        → (((atom : Atom) → Contains (atoms query) (Some atom) → HasLeaf atom given) → ⊥)
        → IsSilent query given }
{}
