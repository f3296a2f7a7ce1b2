//! Laws of the definitions, each the contract of a function that does nothing.
ghost use Rattle.std.specs.Prelude.{◌≡◌, ◌↔◌, true};
ghost use Rattle.std.specs.declared.cmp.Ordering.TheVariants.{Equal};
ghost use Rattle.std.specs.Cmp.{IsTotalOrder};
ghost use Rattle.ax_tree.specs.declared.tree.Tree.{Tree};
ghost use Rattle.ax_mean.specs.Sameness.{is_same};
ghost use Rattle.ax_mean.specs.ValueOrder.{value_cmp};
ghost use Rattle.ax_mean.specs.Fitting.{NumbersOfFit};
ghost use Rattle.ax_mean.specs.declared.value.Value.{Value};

/// The order of values is total.
pub fn value_order_is_total()
    ensures { IsTotalOrder value_cmp }
{}

/// Two values are equal in their order exactly where they are the same. The premise on their numbers
/// says what the type of a number in memory does, and the logic does not.
pub fn equal_values_are_the_same()
    ensures { (a : Value) → (b : Value) → NumbersOfFit a → NumbersOfFit b
        → (value_cmp a b ≡ Equal) ↔ (a ≡ b) }
{}

/// The test of sameness, which `=` of two lists or maps is, passes exactly for the trees that are
/// the same.
pub fn the_same_trees_are_told()
    ensures { (a : Tree) → (b : Tree) → (is_same a b ≡ true) ↔ (a ≡ b) }
{}
