//! The least rows of a query with ORDER BY and LIMIT, from documents that come one after another.
ghost use Rattle.std.specs.Prelude.{◌≡◌, ◌<◌, ℕ, List, [], ◌∷◌, ◌++◌, length, drop, map, take, true, Some, IfOk, OnOk};
ghost use Rattle.std.specs.List.{filter_map};
ghost use Rattle.std.specs.Option.{option_copied};
ghost use Rattle.ax_mean.specs.Answer.{limited, sorted as in_order};
ghost use Rattle.ax_mean.specs.RowOrder.{key_cmp};
ghost use Rattle.ax_mean.specs.Rows.{keyed_rows, order_values as order_values_of};
ghost use Rattle.ax_mean.specs.declared.query.KeyedRow as keyed;
ghost use Rattle.ax_mean.specs.declared.query.Order as directions;
ghost use Rattle.ax_rows.specs.Front.{room_of};
ghost use Rattle.ax_rows.specs.KeyOrder.{directed_cmp};
ghost use Rattle.ax_rows.specs.Least.{HoldsLeast, LeastAsked, TakesLeast, bound_at, is_below, is_wanted, least_keeps};
ghost use Rattle.ax_rows.specs.SortKeys.{keys_of as keys_made, ranked as ranked_row, ranked_cmp};
ghost use Rattle.ax_rows.specs.Taking.{Gains, gains_none, gains_both};

use crate::answer::chosen;
use crate::flow::Flow;
use crate::keyed::keyed_in;
use crate::out_of_memory::Memory;
use crate::parts::order_values;
use crate::ranked::{Ranked, keys_of};
use crate::sort::{rows_of, sort_ranked};
use crate::sort_key::Directed;
use crate::walk::{Taker, walk_tree};
use ax_eval::Scope;
use ax_mean::{Items, KeyedRow, Query, Tree};
use std::alloc::Global;

/// The least so many rows. Of the rows so far at most twice as many are kept.
#[derive(Drop)]
pub struct LeastRows {
    /// How many rows are wanted, at least one.
    most: usize,
    /// The least rows when they were last put in order, in their order.
    least: Vec<Ranked>,
    /// The rows that came since and may be among the least.
    later: Vec<Ranked>,
}

impl LeastRows {
    /// No row yet.
    #[tactic(auto, using(crate::proofs::LeastKept::begins))]
    pub fn new(alloc: Global, most: usize) -> LeastRows
        ensures { (orders : List directions.Order) → HoldsLeast result orders most [] }
    {
        LeastRows {
            most,
            least: Vec::new(alloc),
            later: Vec::new(alloc),
        }
    }

    /// With the rows of a document. What a row shows is made only where the row may be among the
    /// least.
    pub fn with_document(
        self,
        alloc: Global,
        query: &Query,
        number: u32,
        tree: &Tree,
    ) -> Result<LeastRows, Memory>
        ensures { IfOk result (λ after. (most : ℕ) → (rows : List keyed.KeyedRow)
            → HoldsLeast self query.now.orders most rows
            → HoldsLeast after query.now.orders most
            (rows ++ keyed_rows query.now number tree.now)) }
    {
        let Ok(keys) = document_keys(alloc, query, tree) else {
            drop(self);
            return Err(Memory);
        };
        let taker = LeastTaker {
            query,
            number,
            tree,
            keys,
            least: self,
        };
        let taker = walk_tree(alloc, &query.froms, tree, taker)?;
        Ok(taker.into_least())
    }

    /// The rows that OFFSET and LIMIT choose, of which there are together as many as were wanted.
    pub fn finish(
        self,
        alloc: Global,
        skip: u32,
        limit: Option<u32>,
    ) -> Result<Vec<KeyedRow>, Memory>
        ensures { IfOk result (λ chosen. (orders : List directions.Order) → (most : ℕ)
            → (rows : List keyed.KeyedRow) → room_of skip limit ≡ Some most
            → HoldsLeast self orders most rows
            → chosen.items ≡ limited limit (drop skip (in_order (key_cmp orders) rows))) }
    {
        let rows = rows_of(alloc, self.into_least()?)?;
        Ok(chosen(rows, skip, limit))
    }

    /// The least rows so far, in their order.
    #[tactic(auto, using(crate::proofs::LeastKept::least_of))]
    fn into_least(self) -> Result<Vec<Ranked>, Memory>
        ensures { IfOk result (λ least. (orders : List directions.Order) → (most : ℕ)
            → (rows : List keyed.KeyedRow)
            → HoldsLeast self orders most rows
            → least.items ≡ take most
            (in_order (ranked_cmp directed_cmp) (map (ranked_row orders) rows))) }
    {
        let LeastRows {
            most,
            mut least,
            mut later,
        } = self;
        let Ok(()) = settle(&mut least, &mut later, most) else {
            drop(least);
            drop(later);
            return Err(Memory);
        };
        drop(later);
        Ok(least)
    }

    /// The greatest of the least rows, once there are as many as are wanted.
    fn bound(&self) -> Option<&Ranked>
        ensures { option_copied result ≡ bound_at self.now.most self.now.least.items }
    {
        match self.most.checked_sub(1) {
            Some(last) => self.least.as_slice().get(last),
            None => None,
        }
    }

    /// Whether a row with these keys, number and place may be among the least.
    fn wants(&self, keys: &Items<Directed>, number: u32, place: &[u32]) -> bool
        ensures { result ≡ is_below keys.now number place.now
            (bound_at self.now.most self.now.least.items) }
    {
        match self.bound() {
            Some(bound) => bound.follows(keys, number, place),
            None => true,
        }
    }

    /// Whether fewer rows came since the last order than are wanted.
    fn is_short(&self) -> bool
        ensures { result ≡ true → length self.now.later.items < self.now.most }
    {
        self.later.len() < self.most
    }

    /// One row more, which is wanted.
    fn put(&mut self, row: Ranked) -> Result<(), Memory>
        ensures { OnOk result ((orders : List directions.Order) → (most : ℕ)
            → (rows : List keyed.KeyedRow) → (shown : keyed.KeyedRow)
            → HoldsLeast self.old orders most rows
            → row ≡ ranked_row orders shown
            → is_wanted self.old row ≡ true
            → HoldsLeast self.new orders most (rows ++ shown ∷ [])) }
    {
        self.later.push(row)?;
        if self.is_short() {
            return Ok(());
        }
        settle(&mut self.least, &mut self.later, self.most)?;
        Ok(())
    }
}

/// Puts all rows in order and leaves all but the least away.
fn settle(least: &mut Vec<Ranked>, later: &mut Vec<Ranked>, most: usize) -> Result<(), Memory>
    ensures least { OnOk result (least.new.items ≡ take most
        (in_order (ranked_cmp directed_cmp) (least.old.items ++ later.old.items))) }
    ensures later { OnOk result (later.new.items ≡ []) }
{
    least.append(later)?;
    sort_ranked(least)?;
    least.truncate(most);
    Ok(())
}

/// The keys of a document's order values.
fn document_keys(alloc: Global, query: &Query, tree: &Tree) -> Result<Items<Directed>, Memory>
    ensures { IfOk result (λ keys.
        keys ≡ keys_made query.now.orders (order_values_of query.now tree.now)) }
{
    let values = order_values(alloc, &query.orders, tree)?;
    keys_of(alloc, &query.orders, &values)
}

/// Keeps those rows of a document that may be among the least.
#[derive(Drop)]
pub struct LeastTaker<'a> {
    pub query: &'a Query,
    pub number: u32,
    pub tree: &'a Tree,
    /// The keys of the document's order values.
    pub keys: Items<Directed>,
    pub least: LeastRows,
}

impl<'a> LeastTaker<'a> {
    fn into_least(self) -> LeastRows
        ensures { result ≡ self.entry.least }
    {
        let LeastTaker {
            query: _,
            number: _,
            tree: _,
            keys,
            least,
        } = self;
        drop(keys);
        least
    }

    /// Takes a row that may be among the least, where it passes WHERE and shows something.
    #[tactic(auto, using(crate::proofs::LeastKept::no_row_kept))]
    fn keep(&mut self, alloc: Global, scope: &Scope, place: &[u32]) -> Result<(), Memory>
        ensures { OnOk result ((asked : LeastAsked) → (rows : List keyed.KeyedRow)
            → TakesLeast self.old asked rows
            → is_below self.old.keys self.old.number place.now
            (bound_at self.old.least.most self.old.least.least.items) ≡ true
            → TakesLeast self.new asked
            (rows ++ filter_map (least_keeps asked)
            (record { env = scope.now; place = place.now } ∷ []))) }
    {
        let found = keyed_in(alloc, self.query, self.number, self.tree, scope, place)?;
        if let Some(row) = found {
            let ranked = Ranked::new(alloc, &self.query.orders, row)?;
            self.least.put(ranked)?;
        }
        Ok(())
    }
}

impl<'a> Taker for LeastTaker<'a> {
    ghost Took = { Gains TakesLeast least_keeps };

    #[tactic(auto, using(crate::proofs::LeastKept::gains_wanted))]
    fn take(&mut self, alloc: Global, scope: &Scope, place: &[u32]) -> Result<Flow, Memory> {
        if self.least.wants(&self.keys, self.number, place) {
            self.keep(alloc, scope, place)?;
        }
        Ok(Flow::More)
    }

    ghost none = { gains_none TakesLeast least_keeps };

    ghost both = { gains_both TakesLeast least_keeps };
}
