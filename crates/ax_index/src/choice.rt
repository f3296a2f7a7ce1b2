//! Which of the pages that changes touch are merged: those with the most parts.

ghost use Rattle.std.specs.Prelude.{◌<◌};

use crate::out_of_memory::Memory;
use crate::runs::{Run, first_run};
use crate::sizes::{CHANGES_FOR_PART, MOST_MERGED, MOST_PARTS};
use ax_delta::Change;
use ax_pages::Page;
use ax_store::Store;
use std::alloc::Global;

/// What a page needs to be merged.
///
/// It is a choice of speed alone: whichever pages are merged, the set is the same.
#[derive(Drop)]
pub(crate) struct Choice {
    // Pages of a greater weight are merged, and of those with this weight so many.
    weight: usize,
    ties: usize,
}

impl Choice {
    /// Of the pages that the changes touch, the heaviest from `MOST_PARTS` on, at most `MOST_MERGED`.
    pub(crate) fn among<C>(
        alloc: Global,
        store: &Store<C>,
        changes: &[Change],
    ) -> Result<Choice, Memory> {
        let mut weights = Vec::new(alloc);
        let mut rest = changes;
        while rest.len() > 0 {
            let run = first_run(store, rest);
            let weight = weight_of(store, run);
            if weight >= MOST_PARTS {
                weights.push(weight)?;
            }
            let (_, behind) = rest.split_at(run.len);
            rest = behind;
        }
        weights.sort_unstable();
        Ok(Choice::of(weights.as_slice()))
    }

    /// The heaviest of rising weights, at most `MOST_MERGED`.
    fn of(weights: &[usize]) -> Choice {
        let most = MOST_MERGED as usize;
        if weights.len() <= most {
            let weight = MOST_PARTS;
            return Choice { weight, ties: most };
        }
        let weight = weights[weights.len() - most];
        let heavier = weights.len() - weights.partition_point(|other| *other <= weight);
        let ties = most.saturating_sub(heavier);
        Choice { weight, ties }
    }

    /// Whether a page is one of those.
    pub(crate) fn takes<C>(&mut self, store: &Store<C>, run: Run) -> bool {
        let weight = weight_of(store, run);
        if weight == self.weight && self.ties > 0 {
            self.ties -= 1;
            return true;
        }
        weight > self.weight
    }
}

/// How many parts a page has, and as how many more its changes count.
fn weight_of<C>(store: &Store<C>, run: Run) -> usize {
    let parts = store.parts(Page::Term(run.page));
    parts.saturating_add(run.len / CHANGES_FOR_PART)
}
