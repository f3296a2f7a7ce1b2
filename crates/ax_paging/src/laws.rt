//! Laws of the definitions, each the contract of a function that does nothing. Documents are numbers
//! with trees, and their numbers rise strictly, as those of a container do.
ghost use Rattle.std.specs.Prelude.{◌≡◌, ◌≤◌, ◌↔◌, ℕ, List, [], drop, map, replicate, false, Some, None};
ghost use Rattle.std.specs.List.Sorted.{IsStrictlySortedBy};
ghost use Rattle.std.specs.Ordering.{nat_cmp};
ghost use Rattle.ax_tree.specs.declared.tree.Tree.{Tree};
ghost use Rattle.ax_mean.specs.Answer.{all_rows};
ghost use Rattle.ax_mean.specs.declared.query.KeyedRow.{KeyedRow};
ghost use Rattle.ax_mean.specs.declared.query.Query.{Query};
ghost use Rattle.ax_result.specs.Answers.{answer_of};
ghost use Rattle.ax_paging.specs.Joined.{AreJoined};
ghost use Rattle.ax_paging.specs.LeastRows.{page_of_least};
ghost use Rattle.ax_paging.specs.Marks as marks;
ghost use Rattle.ax_paging.specs.Marks.{IsMarkOf, is_counted, remaining};
ghost use Rattle.ax_paging.specs.Pages.{page};

/// Pages one behind another from the beginning are the answer.
pub fn joined()
    ensures { (query : Query) (entries : List (ℕ × Tree)) (counts : List ℕ) (rows : List KeyedRow)
        → IsStrictlySortedBy nat_cmp (map (λ e. e.0) entries)
        → AreJoined query entries (Some marks.Beginning) counts rows
        → rows ≡ answer_of query entries }
{}

/// Pages one behind another from a mark on are the rows that are left there.
pub fn pages_are_what_remains()
    ensures { (query : Query) (entries : List (ℕ × Tree)) (mark : marks.Mark) (counts : List ℕ)
        (rows : List KeyedRow)
        → IsStrictlySortedBy nat_cmp (map (λ e. e.0) entries)
        → IsMarkOf query mark
        → AreJoined query entries (Some mark) counts rows
        → rows ≡ remaining query entries mark }
{}

/// A page that asks for a row ends without a mark exactly where no row follows it.
pub fn a_mark_where_a_row_follows()
    ensures { (query : Query) (entries : List (ℕ × Tree)) (mark : marks.Mark) (count : ℕ)
        → 1 ≤ count
        → (page query entries mark count).next ≡ None ↔ drop count (remaining query entries mark) ≡ [] }
{}

/// A page ends with a mark of its query.
pub fn the_next_mark_is_of_the_query()
    ensures { (query : Query) (entries : List (ℕ × Tree)) (mark : marks.Mark) (next : marks.Mark) (count : ℕ)
        → (page query entries mark count).next ≡ Some next → IsMarkOf query next }
{}

/// From each mark of a query pages that ask for as many rows each come to an end.
pub fn pages_come_to_an_end()
    ensures { (query : Query) (entries : List (ℕ × Tree)) (mark : marks.Mark) (count : ℕ)
        → IsStrictlySortedBy nat_cmp (map (λ e. e.0) entries)
        → IsMarkOf query mark → 1 ≤ count
        → (pages : ℕ) × (rows : List KeyedRow)
        × AreJoined query entries (Some mark) (replicate pages count) rows }
{}

/// The least rows behind its mark make a page, in whatever order they were found.
pub fn the_least_make_the_page()
    ensures { (query : Query) (entries : List (ℕ × Tree)) (mark : marks.Mark) (count : ℕ)
        → is_counted query ≡ false → IsMarkOf query mark
        → page_of_least query mark count (all_rows query entries) ≡ page query entries mark count }
{}
