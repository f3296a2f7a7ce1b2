//! Laws of the definitions, each the contract of a function that does nothing.
ghost use Rattle.std.specs.Prelude.{◌≡◌, ◌≤◌, ℕ, List};
ghost use Rattle.ax_tree.specs.declared.tree.Tree.{Tree};
ghost use Rattle.ax_tree.specs.CanonicalText.{canonical_text};
ghost use Rattle.ax_tree.specs.Nesting.{nesting as nesting_of};
ghost use Rattle.ax_tree.specs.WellFormed.{IsWellFormed};
ghost use Rattle.ax_text.specs.Reading.{reading, Stands};

/// The canonical text of a well formed tree that nests at most 127 deep reads back as that tree.
pub fn canonical_text_reads_back()
    ensures { (tree : Tree) → IsWellFormed tree → nesting_of tree ≤ 127
        → reading (canonical_text tree) ≡ Stands tree }
{}

/// The tree that a text stands for is well formed and nests at most 127 deep, so that its canonical
/// text reads back as it.
pub fn what_is_read_is_well_formed()
    ensures well_formed { (bytes : List ℕ) (tree : Tree)
        → reading bytes ≡ Stands tree → IsWellFormed tree }
    ensures nests { (bytes : List ℕ) (tree : Tree)
        → reading bytes ≡ Stands tree → nesting_of tree ≤ 127 }
{}
