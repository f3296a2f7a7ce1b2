//! What a query answers, from documents that are added one by one.
ghost use Rattle.std.specs.Prelude.{◌≡◌, ◌⊎◌, ◌+◌, ℕ, List, [], ◌∷◌, ◌++◌, map, true, Some, IfOk, OnOk};
ghost use Rattle.std.specs.List.Sorted.{IsStrictlySortedBy};
ghost use Rattle.std.specs.Ordering.{nat_cmp};
ghost use Rattle.ax_tree.specs.declared.tree.Tree as trees;
ghost use Rattle.ax_mean.specs.declared.query.Query as queries;
ghost use Rattle.ax_result.specs.Answers.{answer_of};
ghost use Rattle.ax_answer.specs.Gathering.{Gathers, HasEnough};

use crate::held::Held;
use crate::out_of_memory::Memory;
use ax_base::Steps;
use ax_mean::{KeyedRow, Query, Tree};
use std::alloc::Global;
use std::mem;
use std::sync::ledger::Ledger;

/// What a query answers from documents that are added one by one, in the order of their numbers.
#[derive(Drop)]
pub struct Answer<'a> {
    query: &'a Query,
    held: Held<'a>,
}

impl<'a> Answer<'a> {
    /// No document yet.
    pub fn begin(alloc: Global, query: &'a Query) -> Result<Answer<'a>, Memory>
        ensures { IfOk result (λ answer. Gathers answer query.now []) }
    {
        let held = Held::begin(alloc, query)?;
        Ok(Answer { query, held })
    }

    /// Takes in a document: its number and its tree. It takes one step of work. Where memory runs
    /// out, the answer is of no more use.
    pub fn add<L: Ledger>(
        &mut self,
        alloc: Global,
        number: u32,
        tree: &Tree,
        steps: &mut Steps<L>,
    ) -> Result<(), Memory>
        ensures added { OnOk result ((query : queries.Query) → (entries : List (ℕ × trees.Tree))
            → Gathers self.old query entries
            → Gathers self.new query (entries ++ (number, tree.now) ∷ [])) }
        ensures steps { steps.new ≡ steps.old + 1 }
    {
        steps.tick();
        let held = mem::replace(&mut self.held, Held::Nothing);
        let Ok(held) = held.with_document(alloc, self.query, number, tree) else {
            return Err(Memory);
        };
        drop(mem::replace(&mut self.held, held));
        Ok(())
    }

    /// Whether further documents change nothing of the answer. Without ORDER BY and groups it is so
    /// once as many rows were found as OFFSET and LIMIT choose among, of rows that show the same text
    /// one where DISTINCT is written; with LIMIT 0 from the beginning.
    pub fn is_done(&self) -> bool
        ensures sound { result ≡ true → (query : queries.Query)
            → (entries more : List (ℕ × trees.Tree)) → Gathers self.now query entries
            → Gathers self.now query (entries ++ more) }
        ensures enough { (query : queries.Query) → (entries : List (ℕ × trees.Tree))
            → Gathers self.now query entries → HasEnough query entries → result ≡ true }
        ensures none_wanted { (query : queries.Query) → (entries : List (ℕ × trees.Tree))
            → Gathers self.now query entries → query.limit ≡ Some 0 → result ≡ true }
        ensures only { result ≡ true → (query : queries.Query) → (entries : List (ℕ × trees.Tree))
            → Gathers self.now query entries → (query.limit ≡ Some 0) ⊎ HasEnough query entries }
    {
        self.held.is_done()
    }

    /// The rows of the answer, in their order, of documents that were added in the order of their
    /// numbers.
    pub fn finish(self, alloc: Global) -> Result<Vec<KeyedRow>, Memory>
        ensures { IfOk result (λ rows. (query : queries.Query)
            → (entries : List (ℕ × trees.Tree)) → Gathers self.entry query entries
            → IsStrictlySortedBy nat_cmp (map (λ e. e.0) entries)
            → rows.items ≡ answer_of query entries) }
    {
        let Answer { query, held } = self;
        held.finish(alloc, query)
    }
}
