//! The walk over what the sources of a query bind in a document. Nothing of the document is copied,
//! and it stops at once where what takes the rows has enough.
ghost use Rattle.std.specs.Prelude.{◌≡◌, List, [], ◌∷◌, ◌++◌, Bool, true, IfOk, OnOk};
ghost use Rattle.std.specs.List.{flat_map};
ghost use Rattle.ax_mean.specs.Rows.{Bound, choices, elements_from, rows_from, rows_of_tree, with_choice};
ghost use Rattle.ax_mean.specs.Steps.{steps_from};
ghost use Rattle.ax_mean.specs.declared.value.Value.TheVariants.{Defined};
ghost use Rattle.ax_rows.specs.declared.flow.Flow.TheVariants.{More, Enough};

use crate::flow::Flow;
use crate::out_of_memory::Memory;
use crate::parts::{items_of, part_at};
use ax_eval::Scope;
use ax_mean::{FromItem, FromList, Items, Text, Tree};
use std::alloc::Global;

/// What takes the rows of a document, one after another.
pub trait Taker {
    /// What a taker is after it took some rows.
    ghost Took: { Self → List Bound → Self → Type 0 };

    /// Whether a taker may be given a further row.
    ghost wants_more: { Self → Bool } = { λ _. true };

    /// Takes the row whose aliases stand for what they do in `scope`, and answers whether it wants
    /// more. What answered that it has enough is given no row.
    fn take(&mut self, alloc: Global, scope: &Scope, place: &[u32]) -> Result<Flow, Memory>
        requires wants { wants_more self.old ≡ true }
        ensures took { OnOk result
            (Took self.old (record { env = scope.now; place = place.now } ∷ []) self.new) }
        ensures enough { IfOk result (λ flow. flow ≡ Enough
            → (rows : List Bound) → Took self.new rows self.new) }
        ensures more { IfOk result (λ flow. flow ≡ More → wants_more self.new ≡ true) };

    /// Taking no row leaves a taker as it is.
    ghost none: { (taker : Self) → Took taker [] taker };

    /// Some rows and then others are taken as all of them.
    ghost both: { (a b c : Self) (xs ys : List Bound)
        → Took a xs b → Took b ys c → Took a (xs ++ ys) c };
}

/// Where a walk stands: what the sources so far bind, and the positions that they chose.
#[derive(Drop)]
pub struct Walk<'a, T> {
    alloc: Global,
    scope: Scope<'a>,
    place: Vec<u32>,
    taker: T,
}

/// Gives a taker that wants them the rows of a document, in their order, until it has enough.
pub fn walk_tree<'a, T: Taker + Drop>(
    alloc: Global,
    froms: &'a FromList,
    tree: &'a Tree,
    taker: T,
) -> Result<T, Memory>
    requires wants { T.wants_more taker ≡ true }
    ensures { IfOk result (λ after. T.Took taker (rows_of_tree froms.now tree.now) after) }
{
    let Some((first, rest)) = froms.as_slice().split_first() else {
        return Ok(taker);
    };
    let mut walk = Walk {
        alloc,
        scope: Scope::new(alloc),
        place: Vec::new(alloc),
        taker,
    };
    let _flow = walk.choose(first, rest, tree)?;
    Ok(walk.into_taker())
}

impl<'a, T: Taker> Walk<'a, T> {
    /// The rows that the row so far grows to.
    #[cycle(walk)]
    fn rows(&mut self, items: &'a [FromItem]) -> Result<Flow, Memory>
        requires wants { T.wants_more self.old.taker ≡ true }
        ensures took { OnOk result (T.Took self.old.taker (rows_from items.now
            (record { env = self.old.scope; place = self.old.place.items })) self.new.taker) }
        ensures enough { IfOk result (λ flow. flow ≡ Enough
            → (rows : List Bound) → T.Took self.new.taker rows self.new.taker) }
        ensures more { IfOk result (λ flow. flow ≡ More → T.wants_more self.new.taker ≡ true) }
        ensures scope { OnOk result (self.new.scope ≡ self.old.scope) }
        ensures place { OnOk result (self.new.place.items ≡ self.old.place.items) }
    {
        let Some((item, rest)) = items.split_first() else {
            return self
                .taker
                .take(self.alloc, &self.scope, self.place.as_slice());
        };
        match self.scope.get(item.base.as_str()) {
            Some(tree) => self.choose(item, rest, tree),
            None => Ok(Flow::More),
        }
    }

    /// The rows for what a source binds that begins at `tree`.
    #[cycle(walk)]
    fn choose(
        &mut self,
        item: &'a FromItem,
        rest: &'a [FromItem],
        tree: &'a Tree,
    ) -> Result<Flow, Memory>
        requires wants { T.wants_more self.old.taker ≡ true }
        ensures took { OnOk result (T.Took self.old.taker
            (flat_map (λ choice. rows_from rest.now (with_choice item.now.alias
            (record { env = self.old.scope; place = self.old.place.items }) choice))
            (choices item.now.each (steps_from (Defined tree.now) item.now.steps))) self.new.taker) }
        ensures enough { IfOk result (λ flow. flow ≡ Enough
            → (rows : List Bound) → T.Took self.new.taker rows self.new.taker) }
        ensures more { IfOk result (λ flow. flow ≡ More → T.wants_more self.new.taker ≡ true) }
        ensures scope { OnOk result (self.new.scope ≡ self.old.scope) }
        ensures place { OnOk result (self.new.place.items ≡ self.old.place.items) }
    {
        let Some(part) = part_at(tree, &item.steps) else {
            return Ok(Flow::More);
        };
        if !item.each {
            return self.bind(&item.alias, part, rest);
        }
        match items_of(part) {
            Some(trees) => self.bind_each(&item.alias, trees, rest),
            None => Ok(Flow::More),
        }
    }

    #[cycle(walk)]
    fn bind_each(
        &mut self,
        alias: &'a Text,
        trees: &'a Items<Tree>,
        rest: &'a [FromItem],
    ) -> Result<Flow, Memory>
        requires wants { T.wants_more self.old.taker ≡ true }
        ensures took { OnOk result (T.Took self.old.taker
            (flat_map (λ choice. rows_from rest.now (with_choice alias.now
            (record { env = self.old.scope; place = self.old.place.items }) choice))
            (elements_from 0 trees.now)) self.new.taker) }
        ensures enough { IfOk result (λ flow. flow ≡ Enough
            → (rows : List Bound) → T.Took self.new.taker rows self.new.taker) }
        ensures more { IfOk result (λ flow. flow ≡ More → T.wants_more self.new.taker ≡ true) }
        ensures scope { OnOk result (self.new.scope ≡ self.old.scope) }
        ensures place { OnOk result (self.new.place.items ≡ self.old.place.items) }
    {
        for (at, tree) in trees.as_slice().iter().enumerate() {
            let flow = self.bind_at(alias, tree, at, rest)?;
            if flow.is_enough() {
                return Ok(Flow::Enough);
            }
        }
        Ok(Flow::More)
    }

    /// Where a position needs more than 32 bits, no row can have it as its place: the answer is that
    /// of want of memory.
    #[cycle(walk)]
    fn bind_at(
        &mut self,
        alias: &'a Text,
        tree: &'a Tree,
        at: usize,
        rest: &'a [FromItem],
    ) -> Result<Flow, Memory>
        requires wants { T.wants_more self.old.taker ≡ true }
        ensures took { OnOk result (T.Took self.old.taker (rows_from rest.now (record {
          env = self.old.scope ++ (alias.now, Defined tree.now) ∷ [];
          place = self.old.place.items ++ at ∷ [];
        })) self.new.taker) }
        ensures enough { IfOk result (λ flow. flow ≡ Enough
            → (rows : List Bound) → T.Took self.new.taker rows self.new.taker) }
        ensures more { IfOk result (λ flow. flow ≡ More → T.wants_more self.new.taker ≡ true) }
        ensures scope { OnOk result (self.new.scope ≡ self.old.scope) }
        ensures place { OnOk result (self.new.place.items ≡ self.old.place.items) }
    {
        let Ok(position) = u32::try_from(at) else {
            return Err(Memory);
        };
        self.place.push(position)?;
        let flow = self.bind(alias, tree, rest)?;
        let _ = self.place.pop();
        Ok(flow)
    }

    /// The rows for one tree that a source binds.
    #[cycle(walk)]
    fn bind(
        &mut self,
        alias: &'a Text,
        tree: &'a Tree,
        rest: &'a [FromItem],
    ) -> Result<Flow, Memory>
        requires wants { T.wants_more self.old.taker ≡ true }
        ensures took { OnOk result (T.Took self.old.taker (rows_from rest.now (record {
          env = self.old.scope ++ (alias.now, Defined tree.now) ∷ [];
          place = self.old.place.items;
        })) self.new.taker) }
        ensures enough { IfOk result (λ flow. flow ≡ Enough
            → (rows : List Bound) → T.Took self.new.taker rows self.new.taker) }
        ensures more { IfOk result (λ flow. flow ≡ More → T.wants_more self.new.taker ≡ true) }
        ensures scope { OnOk result (self.new.scope ≡ self.old.scope) }
        ensures place { OnOk result (self.new.place.items ≡ self.old.place.items) }
    {
        self.scope.push(alias, tree)?;
        let flow = self.rows(rest)?;
        self.scope.pop();
        Ok(flow)
    }

    fn into_taker(self) -> T
        ensures { result ≡ self.entry.taker }
    {
        let Walk {
            alloc: _,
            scope,
            place,
            taker,
        } = self;
        drop(scope);
        drop(place);
        taker
    }
}
