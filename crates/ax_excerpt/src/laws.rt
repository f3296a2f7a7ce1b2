//! Laws of the definitions, each the contract of a function that does nothing.
ghost use Rattle.std.specs.Prelude.{◌≡◌, List, [], ℕ, true, map, length};
ghost use Rattle.std.specs.List.Sorted.{IsStrictlySortedBy};
ghost use Rattle.std.specs.Ordering.{nat_cmp};
ghost use Rattle.ax_tree.specs.declared.tree.Tree.{Tree};
ghost use Rattle.ax_mean.specs.declared.expr.QueryStep.{QueryStep};
ghost use Rattle.ax_mean.specs.declared.query.Query.{Query};
ghost use Rattle.ax_mean.specs.declared.value.Value.TheVariants.{Defined};
ghost use Rattle.ax_mean.specs.Rows.{envs_of_tree, keyed_rows};
ghost use Rattle.ax_mean.specs.Steps.{steps_from};
ghost use Rattle.ax_result.specs.Answers.{answer_of};
ghost use Rattle.ax_excerpt.specs.declared.excerpt.Excerpt.{Excerpt};
ghost use Rattle.ax_excerpt.specs.Excerpts.{excerpt_of, keeps, excerpts};
ghost use Rattle.ax_excerpt.specs.Enough.{is_enough};
ghost use Rattle.ax_excerpt.specs.ShownDocuments.{ShowsDocument, showing, tree_numbered, without_pick};

/// Steps that an excerpt keeps lead to the same value in what it leaves of a tree.
pub fn kept_steps_lead_to_the_same()
    ensures { (excerpt : Excerpt) (steps : List QueryStep) (tree : Tree) → keeps excerpt steps ≡ true
        → steps_from (Defined (excerpt_of excerpt tree)) steps ≡ steps_from (Defined tree) steps }
{}

/// A query has the same rows in what an excerpt leaves of a document that is enough for it.
pub fn enough_gives_the_same_rows()
    ensures { (excerpt : Excerpt) (query : Query) (number : ℕ) (tree : Tree)
        → is_enough excerpt query ≡ true
        → keyed_rows query number (excerpt_of excerpt tree) ≡ keyed_rows query number tree }
{}

/// A query has the same answer over what an excerpt leaves of documents that is enough for it.
pub fn enough_gives_the_same_answer()
    ensures { (excerpt : Excerpt) (query : Query) (entries : List (ℕ × Tree))
        → is_enough excerpt query ≡ true
        → answer_of query (excerpts excerpt entries) ≡ answer_of query entries }
{}

/// As many rows of a document pass WHERE in what an excerpt leaves of it that is enough for the query,
/// so none where none of the document does.
pub fn enough_lets_as_many_rows_pass()
    ensures many { (excerpt : Excerpt) (query : Query) (tree : Tree)
        → is_enough excerpt query ≡ true
        → length (envs_of_tree query (excerpt_of excerpt tree)) ≡ length (envs_of_tree query tree) }
    ensures none { (excerpt : Excerpt) (query : Query) (tree : Tree)
        → is_enough excerpt query ≡ true → envs_of_tree query tree ≡ []
        → envs_of_tree query (excerpt_of excerpt tree) ≡ [] }
{}

/// Where a query shows documents themselves, its rows are those of the query that shows null, over
/// what an excerpt leaves that is enough for that, each with the document in place of null.
pub fn documents_are_shown_as_they_are()
    ensures { (excerpt : Excerpt) (query : Query) (number : ℕ) (tree : Tree) → ShowsDocument query
        → is_enough excerpt (without_pick query) ≡ true
        → keyed_rows query number tree
        ≡ map (showing tree) (keyed_rows (without_pick query) number (excerpt_of excerpt tree)) }
{}

/// Where a query shows documents themselves, its answer is that of the query that shows null, over
/// what an excerpt leaves of the documents that is enough for that, each row with the document of its
/// number in place of null.
pub fn answers_show_documents_as_they_are()
    ensures { (excerpt : Excerpt) (query : Query) (entries : List (ℕ × Tree)) → ShowsDocument query
        → is_enough excerpt (without_pick query) ≡ true
        → IsStrictlySortedBy nat_cmp (map (λ entry. entry.0) entries)
        → answer_of query entries
        ≡ map (λ row. showing (tree_numbered row.number entries) row)
        (answer_of (without_pick query) (excerpts excerpt entries)) }
{}
