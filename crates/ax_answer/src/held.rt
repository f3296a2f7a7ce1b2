//! What an answer keeps of the documents so far, by what its query needs.
ghost use Rattle.std.specs.Prelude.{◌≡◌, ◌⊎◌, ℕ, List, [], ◌∷◌, ◌++◌, map, true, false, Some, IfOk};
ghost use Rattle.std.specs.List.Sorted.{IsStrictlySortedBy};
ghost use Rattle.std.specs.Ordering.{nat_cmp};
ghost use Rattle.ax_tree.specs.declared.tree.Tree as trees;
ghost use Rattle.ax_mean.specs.Aggregates.{has_groups as there_are_groups, has_some};
ghost use Rattle.ax_mean.specs.declared.query.Query as queries;
ghost use Rattle.ax_result.specs.Answers.{answer_of};
ghost use Rattle.ax_rows.specs.Front.{room_of};
ghost use Rattle.ax_answer.specs.Gathering.{GathersIn, HasEnough, wants_rows};

use crate::group_rows::add_rows;
use crate::out_of_memory::Memory;
use ax_group::Groups;
use ax_mean::{KeyedRow, Query, Tree};
use ax_rows::{FrontRows, LeastRows, append_rows, finish, has_groups};
use std::alloc::Global;

/// What an answer keeps of the documents so far.
#[derive(Drop)]
pub enum Held<'a> {
    /// Nothing, where no row is wanted.
    Nothing,
    /// The groups of the rows, where the query has groups.
    InGroups(Groups<'a>),
    /// The first rows behind those that OFFSET leaves out, where they come in their order.
    Front(FrontRows),
    /// The least rows, where they are put in order and not all are wanted.
    Least(LeastRows),
    /// Every row.
    Every(Vec<KeyedRow>),
}

impl<'a> Held<'a> {
    /// What is kept before the first document.
    pub fn begin(alloc: Global, query: &'a Query) -> Result<Held<'a>, Memory>
        ensures { IfOk result (λ held. GathersIn held query.now []) }
    {
        if !wants_any(query.limit) {
            return Ok(Held::Nothing);
        }
        if has_groups(query) {
            return Held::of_groups(alloc, query);
        }
        Ok(Held::of_rows(alloc, query))
    }

    fn of_groups(alloc: Global, query: &'a Query) -> Result<Held<'a>, Memory>
        ensures { IfOk result (λ held. wants_rows query.now.limit ≡ true
            → there_are_groups query.now ≡ true → GathersIn held query.now []) }
    {
        match Groups::begin(alloc, query) {
            Ok(groups) => Ok(Held::InGroups(groups)),
            Err(_) => Err(Memory),
        }
    }

    fn of_rows(alloc: Global, query: &'a Query) -> Held<'a>
        ensures { wants_rows query.now.limit ≡ true → there_are_groups query.now ≡ false
            → GathersIn result query.now [] }
    {
        if query.orders.as_slice().is_empty() {
            let front = FrontRows::new(alloc, query.distinct, query.skip, query.limit);
            return Held::Front(front);
        }
        match room_in(query.skip, query.limit) {
            Some(most) if !query.distinct => {
                let least = LeastRows::new(alloc, most);
                Held::Least(least)
            }
            _ => Held::Every(Vec::new(alloc)),
        }
    }

    /// With the rows of a document more.
    pub fn with_document(
        self,
        alloc: Global,
        query: &Query,
        number: u32,
        tree: &Tree,
    ) -> Result<Held<'a>, Memory>
        ensures { IfOk result (λ held. (entries : List (ℕ × trees.Tree))
            → GathersIn self.entry query.now entries
            → GathersIn held query.now (entries ++ (number, tree.now) ∷ [])) }
    {
        match self {
            Held::Nothing => Ok(Held::Nothing),
            Held::InGroups(groups) => Ok(Held::InGroups(add_rows(alloc, query, tree, groups)?)),
            Held::Front(front) => {
                Ok(Held::Front(front.with_document(alloc, query, number, tree)?))
            }
            Held::Least(least) => {
                Ok(Held::Least(least.with_document(alloc, query, number, tree)?))
            }
            Held::Every(rows) => Ok(Held::Every(append_rows(alloc, query, number, tree, rows)?)),
        }
    }

    /// Whether further documents change nothing.
    pub fn is_done(&self) -> bool
        ensures sound { result ≡ true → (query : queries.Query)
            → (entries more : List (ℕ × trees.Tree)) → GathersIn self.now query entries
            → GathersIn self.now query (entries ++ more) }
        ensures enough { (query : queries.Query) → (entries : List (ℕ × trees.Tree))
            → GathersIn self.now query entries → HasEnough query entries → result ≡ true }
        ensures none_wanted { (query : queries.Query) → (entries : List (ℕ × trees.Tree))
            → GathersIn self.now query entries → query.limit ≡ Some 0 → result ≡ true }
        ensures only { result ≡ true → (query : queries.Query) → (entries : List (ℕ × trees.Tree))
            → GathersIn self.now query entries → (query.limit ≡ Some 0) ⊎ HasEnough query entries }
    {
        match self {
            Held::Nothing => true,
            Held::Front(front) => front.is_full(),
            Held::InGroups(_) => false,
            Held::Least(_) => false,
            Held::Every(_) => false,
        }
    }

    /// The rows of the answer, in their order.
    pub fn finish(self, alloc: Global, query: &Query) -> Result<Vec<KeyedRow>, Memory>
        ensures { IfOk result (λ rows. (entries : List (ℕ × trees.Tree))
            → GathersIn self.entry query.now entries
            → IsStrictlySortedBy nat_cmp (map (λ e. e.0) entries)
            → rows.items ≡ answer_of query.now entries) }
    {
        match self {
            Held::Nothing => Ok(Vec::new(alloc)),
            Held::InGroups(groups) => {
                let rows = groups.finish(alloc)?;
                Ok(finish(alloc, query, rows)?)
            }
            Held::Front(front) => Ok(front.finish()),
            Held::Least(least) => Ok(least.finish(alloc, query.skip, query.limit)?),
            Held::Every(rows) => Ok(finish(alloc, query, rows)?),
        }
    }
}

/// Whether any row is wanted.
fn wants_any(limit: Option<u32>) -> bool
    ensures { result ≡ wants_rows limit }
{
    match limit {
        Some(limit) => limit > 0,
        None => true,
    }
}

/// How many rows OFFSET and LIMIT choose among; all where there is no LIMIT.
fn room_in(skip: u32, limit: Option<u32>) -> Option<usize>
    ensures { result ≡ room_of skip limit }
{
    match limit {
        Some(limit) => Some(skip as usize + limit as usize),
        None => None,
    }
}
