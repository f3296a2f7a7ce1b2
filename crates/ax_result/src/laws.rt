//! Laws of the definitions, each the contract of a function that does nothing.
ghost use Rattle.std.specs.Prelude.{◌≡◌, ℕ, List, [], ◌∷◌, ◌++◌, map, All, true, false, if◌then◌else◌};
ghost use Rattle.std.specs.declared.cmp.Ordering.{Ordering};
ghost use Rattle.std.specs.Cmp.{IsTotalOrder};
ghost use Rattle.std.specs.List.{IsDistinct, filter};
ghost use Rattle.std.specs.List.Sorted.{IsPermutation, IsStrictlySortedBy};
ghost use Rattle.std.specs.Str.{bytes_eq};
ghost use Rattle.ax_tree.specs.declared.tree.Tree.{Tree};
ghost use Rattle.ax_mean.specs.Aggregates.{has_groups, has_some};
ghost use Rattle.ax_mean.specs.Answer.{answer, sorted, unseen};
ghost use Rattle.ax_mean.specs.declared.expr.Expr.{Expr};
ghost use Rattle.ax_mean.specs.declared.query.KeyedRow.{KeyedRow};
ghost use Rattle.ax_mean.specs.declared.query.Query.{Query};
ghost use Rattle.ax_mean.specs.Meaning.{Env};
ghost use Rattle.ax_result.specs.Answers.{answer_of};
ghost use Rattle.ax_result.specs.Groups.{Group, group_values, groups_of, has_tuple, is_of, tuples, values_cmp};
ghost use Rattle.ax_result.specs.Sorting.{AreInOrder, shows, text_of};

/// A query without groups is answered by its plain answer.
pub fn without_groups_the_answer_is_plain()
    ensures { (query : Query) (entries : List (ℕ × Tree)) → has_groups query ≡ false
        → answer_of query entries ≡ answer query entries }
{}

/// The tuples of groups strictly rise, so no two groups are of one tuple.
#[tactic(auto, using(crate::proofs::Tuples::groups_rise))]
pub fn tuples_of_groups_rise()
    ensures { (exprs : List Expr) (envs : List Env)
        → IsStrictlySortedBy values_cmp (tuples (groups_of exprs envs)) }
{}

/// A group's rows are exactly those of its tuple, in the order in which they came.
#[tactic(auto, using(crate::proofs::GroupRows::groups_have_their_rows))]
pub fn a_group_has_the_rows_of_its_tuple()
    ensures { (exprs : List Expr) (envs : List Env)
        → All (λ (group : Group). group.envs ≡ filter (is_of exprs group.values) envs)
        (groups_of exprs envs) }
{}

/// Each row has the group of its tuple.
#[tactic(auto, using(crate::proofs::GroupRows::rows_have_their_groups))]
pub fn each_row_has_a_group()
    ensures { (exprs : List Expr) (envs : List Env)
        → All (λ env. has_tuple (group_values exprs env) (groups_of exprs envs) ≡ true) envs }
{}

/// With GROUP BY each group has a row.
#[tactic(auto, using(crate::proofs::GroupRows::groups_have_rows))]
pub fn each_group_has_a_row()
    ensures { (expr : Expr) (exprs : List Expr) (envs : List Env)
        → All (λ (group : Group). has_some group.envs ≡ true) (groups_of (expr ∷ exprs) envs) }
{}

/// Sorting keeps the rows.
#[tactic(auto, using(crate::proofs::Sorted::sorted_same))]
pub fn sorting_keeps_the_rows()
    ensures { (cmp : KeyedRow → KeyedRow → Ordering) (rows : List KeyedRow)
        → IsPermutation rows (sorted cmp rows) }
{}

/// Sorting by a total order leaves no row behind one that comes after it.
#[tactic(auto, using(crate::proofs::Sorted::sorted_in_order))]
pub fn sorted_rows_are_in_order()
    ensures { (cmp : KeyedRow → KeyedRow → Ordering) (rows : List KeyedRow)
        → IsTotalOrder cmp → AreInOrder cmp (sorted cmp rows) }
{}

/// DISTINCT leaves no two rows that show one text.
#[tactic(auto, using(crate::proofs::Distinct::texts_are_distinct))]
pub fn distinct_rows_show_distinct_texts()
    ensures { (rows : List KeyedRow)
        → IsDistinct bytes_eq (map text_of (unseen (λ text. false) rows)) }
{}

/// DISTINCT keeps a row exactly where no row before it shows its text.
#[tactic(auto, using(crate::proofs::Distinct::kept_where_first))]
pub fn distinct_keeps_the_first_of_a_text()
    ensures { (rows : List KeyedRow) (row : KeyedRow)
        → unseen (λ text. false) (rows ++ row ∷ []) ≡ (if shows (text_of row) rows
        then unseen (λ text. false) rows
        else unseen (λ text. false) rows ++ row ∷ []) }
{}
