//! Laws of the definitions, each the contract of a function that does nothing.
ghost use Rattle.std.specs.Prelude.{◌≡◌, ℕ, List, [], drop, map, false};
ghost use Rattle.std.specs.Ordering.{nat_cmp};
ghost use Rattle.std.specs.List.Sorted.{IsStrictlySortedBy};
ghost use Rattle.ax_tree.specs.declared.tree.Tree.{Tree};
ghost use Rattle.ax_mean.specs.Aggregates.{has_groups, has_some};
ghost use Rattle.ax_mean.specs.Answer.{all_rows, answer, limited, sorted};
ghost use Rattle.ax_mean.specs.RowOrder.{key_cmp};
ghost use Rattle.ax_mean.specs.declared.query.Query.{Query};
ghost use Rattle.ax_rows.specs.Front.{front_of, room_of};

/// The rows of documents whose numbers rise come in strictly rising order of number and place.
pub fn rows_come_in_order()
    ensures { (query : Query) (entries : List (ℕ × Tree))
        → IsStrictlySortedBy nat_cmp (map (λ e. e.0) entries)
        → IsStrictlySortedBy (key_cmp []) (all_rows query entries) }
{}

/// Sorted, their keys rise strictly: no two rows have one key.
pub fn keys_are_distinct()
    ensures { (query : Query) (entries : List (ℕ × Tree))
        → IsStrictlySortedBy nat_cmp (map (λ e. e.0) entries)
        → IsStrictlySortedBy (key_cmp query.orders)
        (sorted (key_cmp query.orders) (all_rows query entries)) }
{}

/// Without ORDER BY and groups an answer is chosen by OFFSET and LIMIT among as many of the first rows,
/// of rows that show the same text one where DISTINCT is written.
#[tactic(auto, using(crate::proofs::InOrder::among_the_first))]
pub fn the_first_are_enough()
    ensures { (query : Query) (entries : List (ℕ × Tree))
        → IsStrictlySortedBy nat_cmp (map (λ e. e.0) entries) → has_groups query ≡ false
        → has_some query.orders ≡ false
        → answer query entries ≡ limited query.limit (drop query.skip
        (front_of query.distinct (room_of query.skip query.limit) (all_rows query entries))) }
{}

/// With ORDER BY and without DISTINCT and groups it is chosen among as many of the least rows.
#[tactic(auto, using(crate::proofs::InOrder::among_the_least))]
pub fn the_least_are_enough()
    ensures { (query : Query) (entries : List (ℕ × Tree)) → has_groups query ≡ false
        → query.distinct ≡ false
        → answer query entries ≡ limited query.limit (drop query.skip (limited
        (room_of query.skip query.limit) (sorted (key_cmp query.orders) (all_rows query entries)))) }
{}
