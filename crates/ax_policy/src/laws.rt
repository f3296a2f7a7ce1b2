//! Laws of the definitions, each the contract of a function that does nothing.
ghost use Rattle.std.specs.Prelude.{◌≡◌, Some};
ghost use Rattle.ax_tree.specs.declared.tree.Tree.{Tree};
ghost use Rattle.ax_policy.specs.Normal.{normal_text, normal_tree};
ghost use Rattle.ax_policy.specs.Policies.{policy_of};
ghost use Rattle.ax_policy.specs.Table.{Table, AreApart, SetsNow};
ghost use Rattle.ax_policy.specs.declared.policy.Policy.{Policy};

/// Where no two numbers in use or now have policies of one normal text, so it is when a policy was
/// made the one now.
pub fn policies_stay_apart()
    ensures { (policy : Policy) (old new : Table) → SetsNow policy old new → AreApart old → AreApart new }
{}

/// A policy that was read is read again from its own normal text, as the tree that this text is.
pub fn a_policy_is_read_again()
    ensures { (given : Tree) (policy : Policy) → policy_of given ≡ Some policy
        → policy_of (normal_tree policy) ≡ Some policy }
{}

/// Two policies that were read and have one normal text are equal.
pub fn one_normal_text()
    ensures { (one other : Tree) (a b : Policy) → policy_of one ≡ Some a → policy_of other ≡ Some b
        → normal_text a ≡ normal_text b → a ≡ b }
{}
