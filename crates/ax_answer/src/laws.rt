//! Laws of the definitions, each the contract of a function that does nothing.
ghost use Rattle.std.specs.Prelude.{◌≡◌, ℕ, List, [], ◌∷◌, ◌++◌};
ghost use Rattle.ax_tree.specs.Document.{value_of};
ghost use Rattle.ax_tree.specs.declared.members.Member.{Member};
ghost use Rattle.ax_tree.specs.declared.tree.Tree.{Tree};
ghost use Rattle.ax_mean.specs.Building.{members_of};
ghost use Rattle.ax_mean.specs.Rows.{envs_of_tree, keyed_rows};
ghost use Rattle.ax_mean.specs.Values.{of_tree};
ghost use Rattle.ax_mean.specs.declared.query.Query.{Query};
ghost use Rattle.ax_mean.specs.declared.value.Value.{Value};
ghost use Rattle.ax_answer.specs.declared.answer.Answer as answers;
ghost use Rattle.ax_answer.specs.Gathering.{Gathers};
ghost use Rattle.ax_answer.specs.Written.{last_written};

/// A document without rows adds nothing: an answer without it is an answer with it.
pub fn rowless_adds_nothing()
    ensures { (answer : answers.Answer) (query : Query) (entries : List (ℕ × Tree)) (number : ℕ)
        (tree : Tree) → envs_of_tree query tree ≡ [] → keyed_rows query number tree ≡ []
        → Gathers answer query entries
        → Gathers answer query (entries ++ (number, tree) ∷ []) }
{}

/// A map that is written has under a name the value that was written last there, and no member of that
/// name where this value is undefined.
#[tactic(auto, using(crate::proofs::WrittenMembers::last_counts))]
pub fn the_last_value_of_a_name_counts()
    ensures { (name : List ℕ) (members : List (Member Value))
        → of_tree (value_of name (members_of members)) ≡ last_written name members }
{}
