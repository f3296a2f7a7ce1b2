//! The first rows of a query without ORDER BY, from documents that come in the order of their numbers.
//! Of rows that OFFSET leaves out nothing is kept but how many are still to come, and what they show
//! where DISTINCT is written.
ghost use Rattle.std.specs.Prelude.{◌≡◌, ◌≤◌, ◌+◌, ℕ, List, [], ◌∷◌, ◌++◌, length, nat_le, drop, Bool, true, not, if◌then◌else◌, Option, Some, IfOk, OnOk};
ghost use Rattle.ax_mean.specs.Answer.{distinct_where, limited};
ghost use Rattle.ax_mean.specs.Rows.{keyed_rows};
ghost use Rattle.ax_mean.specs.declared.query.KeyedRow as keyed;
ghost use Rattle.ax_rows.specs.Front.{IsFront, TakesFront, fresh, front_after, front_keeps, left_behind as left_after_one, reaches};
ghost use Rattle.ax_rows.specs.Taking.{Gains, gains_none, gains_both};

use crate::answer::cut;
use crate::flow::Flow;
use crate::key_bytes::KeyBytes;
use crate::keyed::{has_row, keyed_in};
use crate::out_of_memory::Memory;
use crate::walk::{Taker, walk_tree};
use ax_eval::Scope;
use ax_mean::{KeyedRow, Query, Tree};
use std::alloc::Global;
use std::collections::BTreeSet;

/// The first rows behind those that OFFSET leaves out, as many as are wanted; of those that show the
/// same text the first, where DISTINCT is written.
#[derive(Drop)]
pub struct FrontRows {
    /// How many rows are still to be left out.
    left: u32,
    /// How many rows are wanted; all where there is none.
    limit: Option<u32>,
    /// The texts of the rows so far, where DISTINCT is written.
    seen: Option<BTreeSet<KeyBytes>>,
    rows: Vec<KeyedRow>,
}

impl FrontRows {
    /// No row yet.
    #[tactic(auto, using(crate::proofs::FrontKept::begins))]
    pub fn new(alloc: Global, distinct: bool, skip: u32, limit: Option<u32>) -> FrontRows
        ensures { IsFront result distinct skip limit [] }
    {
        FrontRows {
            left: skip,
            limit,
            seen: texts_seen(alloc, distinct),
            rows: Vec::new(alloc),
        }
    }

    /// Whether there are as many rows as are wanted.
    pub fn is_full(&self) -> bool
        ensures sound { result ≡ true → (distinct : Bool) → (skip : ℕ) → (limit : Option ℕ)
            → (rows more : List keyed.KeyedRow) → IsFront self.now distinct skip limit rows
            → IsFront self.now distinct skip limit (rows ++ more) }
        ensures full { (distinct : Bool) → (skip most : ℕ) → (rows : List keyed.KeyedRow)
            → IsFront self.now distinct skip (Some most) rows
            → skip + most ≤ length (distinct_where distinct rows) → result ≡ true }
        ensures reaches { result ≡ reaches self.now.limit (length self.now.rows.items) }
    {
        match self.limit {
            Some(limit) => self.has_rows(limit as usize),
            None => false,
        }
    }

    /// Whether there are so many rows, or more.
    fn has_rows(&self, count: usize) -> bool
        ensures yes { result ≡ true → count ≤ length self.now.rows.items }
        ensures found { count ≤ length self.now.rows.items → result ≡ true }
        ensures reaches { result ≡ nat_le count (length self.now.rows.items) }
    {
        count <= self.rows.len()
    }

    /// With the rows of a document, which is not looked at where no further row is wanted.
    pub fn with_document(
        self,
        alloc: Global,
        query: &Query,
        number: u32,
        tree: &Tree,
    ) -> Result<FrontRows, Memory>
        ensures { IfOk result (λ after. (distinct : Bool) → (skip : ℕ) → (limit : Option ℕ)
            → (rows : List keyed.KeyedRow) → IsFront self distinct skip limit rows
            → IsFront after distinct skip limit (rows ++ keyed_rows query.now number tree.now)) }
    {
        if self.is_full() {
            return Ok(self);
        }
        let taker = FrontTaker {
            query,
            number,
            tree,
            front: self,
        };
        let taker = walk_tree(alloc, &query.froms, tree, taker)?;
        Ok(taker.into_front())
    }

    /// The rows that OFFSET and LIMIT choose.
    pub fn finish(self) -> Vec<KeyedRow>
        ensures { (distinct : Bool) → (skip : ℕ) → (limit : Option ℕ)
            → (rows : List keyed.KeyedRow) → IsFront self distinct skip limit rows
            → result.items ≡ limited limit (drop skip (distinct_where distinct rows)) }
    {
        let FrontRows {
            left: _,
            limit,
            seen,
            mut rows,
        } = self;
        drop(seen);
        cut(&mut rows, limit);
        rows
    }

    /// How many rows are to be left out behind the next one, where that is left out whatever it
    /// shows.
    fn left_behind(&self) -> Option<u32>
        ensures { result ≡ left_after_one self.now.seen self.now.left }
    {
        match &self.seen {
            Some(_) => None,
            None => self.left.checked_sub(1),
        }
    }

    /// One row more.
    #[tactic(auto, using(crate::proofs::FrontKept::put_one, crate::proofs::FrontKept::put_none))]
    fn put(&mut self, alloc: Global, row: KeyedRow) -> Result<(), Memory>
        ensures limit { OnOk result (self.new.limit ≡ self.old.limit) }
        ensures rows { OnOk result ((more : List keyed.KeyedRow)
            → front_after self.new more ≡ front_after self.old (row ∷ more)) }
    {
        match is_new(alloc, &mut self.seen, &row) {
            Ok(true) => self.put_new(row),
            Ok(false) => {
                drop(row);
                Ok(())
            }
            Err(fault) => {
                drop(row);
                Err(fault)
            }
        }
    }

    /// One row more, which is none that was seen.
    fn put_new(&mut self, row: KeyedRow) -> Result<(), Memory>
        ensures limit { OnOk result (self.new.limit ≡ self.old.limit) }
        ensures seen { OnOk result (self.new.seen ≡ self.old.seen) }
        ensures rows { OnOk result ((more : List keyed.KeyedRow)
            → self.new.rows.items ++ drop self.new.left more
            ≡ self.old.rows.items ++ drop self.old.left (row ∷ more)) }
    {
        match self.left.checked_sub(1) {
            Some(left) => {
                self.left = left;
                drop(row);
                Ok(())
            }
            None => Ok(self.rows.push(row)?),
        }
    }
}

/// No text, where DISTINCT is written.
fn texts_seen(alloc: Global, distinct: bool) -> Option<BTreeSet<KeyBytes>>
    ensures { (more : List keyed.KeyedRow) → fresh result more ≡ distinct_where distinct more }
{
    if distinct {
        Some(BTreeSet::new(alloc))
    } else {
        None
    }
}

/// Whether no row before shows the same text, where that is asked; the text is then seen.
fn is_new(
    alloc: Global,
    seen: &mut Option<BTreeSet<KeyBytes>>,
    row: &KeyedRow,
) -> Result<bool, Memory>
    ensures { IfOk result (λ found. (more : List keyed.KeyedRow)
        → (if found then row.now ∷ fresh seen.new more else fresh seen.new more)
        ≡ fresh seen.old (row.now ∷ more)) }
{
    match seen.as_mut() {
        None => Ok(true),
        Some(texts) => is_unseen(alloc, texts, row),
    }
}

#[tactic(auto, using(crate::proofs::FrontKept::told_by))]
fn is_unseen(alloc: Global, texts: &mut BTreeSet<KeyBytes>, row: &KeyedRow) -> Result<bool, Memory>
    ensures { IfOk result (λ found. (more : List keyed.KeyedRow)
        → (if found then row.now ∷ fresh (Some texts.new) more else fresh (Some texts.new) more)
        ≡ fresh (Some texts.old) (row.now ∷ more)) }
{
    let text = KeyBytes::tree(alloc, &row.shown)?;
    Ok(texts.insert(text)?)
}

/// Keeps the first rows of a document, behind those of documents before.
#[derive(Drop)]
pub struct FrontTaker<'a> {
    pub query: &'a Query,
    pub number: u32,
    pub tree: &'a Tree,
    pub front: FrontRows,
}

impl<'a> FrontTaker<'a> {
    fn into_front(self) -> FrontRows
        ensures { result ≡ self.entry.front }
    {
        let FrontTaker {
            query: _,
            number: _,
            tree: _,
            front,
        } = self;
        front
    }

    /// Takes the row, where it passes WHERE and shows something. Where it is left out whatever it
    /// shows, it is only counted.
    #[tactic(auto, using(crate::proofs::FrontKept::gains_none_counted, crate::proofs::FrontKept::gains_counted))]
    fn keep(&mut self, alloc: Global, scope: &Scope, place: &[u32]) -> Result<(), Memory>
        ensures { OnOk result (Gains TakesFront front_keeps self.old
            (record { env = scope.now; place = place.now } ∷ []) self.new) }
    {
        let Some(left) = self.front.left_behind() else {
            return self.keep_row(alloc, scope, place);
        };
        if has_row(alloc, self.query, scope)? {
            self.front.left = left;
        }
        Ok(())
    }

    #[tactic(auto, using(crate::proofs::FrontKept::gains_no_row, crate::proofs::FrontKept::gains_row))]
    fn keep_row(&mut self, alloc: Global, scope: &Scope, place: &[u32]) -> Result<(), Memory>
        ensures { OnOk result (Gains TakesFront front_keeps self.old
            (record { env = scope.now; place = place.now } ∷ []) self.new) }
    {
        let row = keyed_in(alloc, self.query, self.number, self.tree, scope, place)?;
        if let Some(row) = row {
            self.front.put(alloc, row)?;
        }
        Ok(())
    }
}

impl<'a> Taker for FrontTaker<'a> {
    ghost Took = { Gains TakesFront front_keeps };

    ghost wants_more = { λ taker. not (reaches taker.front.limit (length taker.front.rows.items)) };

    fn take(&mut self, alloc: Global, scope: &Scope, place: &[u32]) -> Result<Flow, Memory> {
        self.keep(alloc, scope, place)?;
        if self.front.is_full() {
            return Ok(Flow::Enough);
        }
        Ok(Flow::More)
    }

    ghost none = { gains_none TakesFront front_keeps };

    ghost both = { gains_both TakesFront front_keeps };
}
