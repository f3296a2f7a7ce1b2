//! Laws of the definitions, each the contract of a function that does nothing.
ghost use Rattle.std.specs.Prelude.{◌≡◌};
ghost use Rattle.ax_tree.specs.declared.tree.Tree.{Tree};
ghost use Rattle.ax_tree.specs.CanonicalText.{canonical_text};
ghost use Rattle.ax_tree.specs.WellFormed.{IsWellFormed, NumbersFit};

/// Two trees with one canonical text are equal, however deep they nest. The premise on their
/// numbers says what the type of a number in memory does, and the logic does not.
pub fn one_canonical_text()
    ensures { (a : Tree) → (b : Tree) → NumbersFit a → NumbersFit b
        → canonical_text a ≡ canonical_text b → a ≡ b }
{}

/// The numbers of a well formed tree are of 64 bits.
pub fn numbers_of_well_formed_fit()
    ensures { (tree : Tree) → IsWellFormed tree → NumbersFit tree }
{}
