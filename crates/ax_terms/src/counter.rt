//! What is counted so far of the terms of a document.
ghost use Rattle.std.specs.Prelude.{◌≡◌, ◌+◌, ℕ, List, Bool, [], ◌∷◌, Some, true, IfOk, OnOk, OnErr, length, max, if◌then◌else◌};
ghost use Rattle.std.specs.BTreeMap.{btree_map_len, get};
ghost use Rattle.std.specs.Cmp.Lexicographic.{slice_cmp};
ghost use Rattle.std.specs.Ordering.{nat_cmp};
ghost use Rattle.ax_mean.specs.declared.query.Step.{Step};
ghost use Rattle.ax_mean.specs.declared.query.Step.TheVariants.{Item, Name};
ghost use Rattle.ax_mean.specs.declared.value.Value.TheVariants.{Defined};
ghost use Rattle.ax_term.specs.CutValues.{cut_of};
ghost use Rattle.ax_term.specs.TermBytes.{step_bytes, value_bytes};
ghost use Rattle.ax_terms.specs.Counting.{AreNumbers, Counted, Counts, IsAt, Gives, IsStepTo, Keeps, numbers_in};
ghost use Rattle.ax_terms.specs.Counts.{capped};
ghost use Rattle.ax_terms.specs.Leaves.{alone};

use crate::numbered::Numbered;
use crate::term_count::TermCount;
use crate::term_value::term_value;
use ax_mean::{Memory, Text, Tree};
use std::alloc::Global;
use std::collections::{BTreeMap, BTreeSet};

/// What is counted so far of the terms of a document.
#[derive(Drop)]
pub(crate) struct Counter {
    /// The number of each path that was met, by the number of the path above it and its last step.
    /// The empty path has the number 0.
    pub(crate) numbers: BTreeMap<Numbered, u64>,
    /// The values that were met, each with the number of its path.
    pub(crate) seen: BTreeSet<Numbered>,
    pub(crate) counts: TermCount,
}

/// A path that was met: its number, and the bytes of its encoded steps.
#[derive(Clone, Copy)]
pub(crate) struct Place {
    pub(crate) number: u64,
    pub(crate) size: u64,
}

impl Counter {
    /// Nothing is counted.
    #[tactic(auto, using(crate::proofs::CountLaws::begins))]
    pub(crate) fn new(alloc: Global) -> Counter
        ensures { Counts result [] }
    {
        Counter {
            numbers: BTreeMap::new(alloc),
            seen: BTreeSet::new(alloc),
            counts: TermCount {
                count: 0,
                bytes: 0,
                longest_path: 0,
            },
        }
    }

    /// The place of the elements of a list.
    pub(crate) fn behind_item(&mut self, alloc: Global, at: Place) -> Result<Place, Memory>
        ensures { IfOk result (λ place. IsStepTo self.old at Item place self.new) }
    {
        let key = Numbered::item(alloc, at.number)?;
        Ok(self.behind(at, key)?)
    }

    /// The place of a member of a map.
    pub(crate) fn behind_name(
        &mut self,
        alloc: Global,
        at: Place,
        name: &Text,
    ) -> Result<Place, Memory>
        ensures { IfOk result (λ place. IsStepTo self.old at (Name name.now) place self.new) }
    {
        let key = Numbered::name(alloc, at.number, name)?;
        Ok(self.behind(at, key)?)
    }

    fn behind(&mut self, at: Place, key: Numbered) -> Result<Place, Memory>
        ensures { IfOk result (λ place.
            (step : Step) → key ≡ at.number ∷ step_bytes step → IsStepTo self.old at step place self.new) }
    {
        let size = at.size.saturating_add(key.size() as u64);
        let number = number_of(&mut self.numbers, key)?;
        Ok(Place { number, size })
    }

    /// Counts the tree at that place as a leaf.
    pub(crate) fn count_leaf(&mut self, alloc: Global, at: Place, tree: &Tree) -> Result<(), Memory>
        ensures { OnOk result (Counted self.old at (alone tree.now) self.new) }
    {
        let key = leaf_key(alloc, at.number, tree)?;
        let path_size = at.size.saturating_add(1);
        let size = path_size
            .saturating_add(1)
            .saturating_add(key.size() as u64);
        let is_new = self.seen.insert(key)?;
        self.counts = counts_with(self.counts, is_new, size, path_size);
        Ok(())
    }
}

/// The value of a leaf, behind the number of its path.
fn leaf_key(alloc: Global, number: u64, tree: &Tree) -> Result<Numbered, Memory>
    ensures { IfOk result (λ key. key ≡ number ∷ value_bytes (cut_of (Defined tree.now))) }
{
    let value = term_value(alloc, tree)?;
    Numbered::value(alloc, number, &value)
}

/// The number of a path, which is given one now if it has none.
#[tactic(auto, using(crate::proofs::PathNumbers::has_number))]
fn number_of(numbers: &mut BTreeMap<Numbered, u64>, key: Numbered) -> Result<u64, Memory>
    ensures { IfOk result (λ number. Gives numbers.old key number numbers.new) }
{
    if let Some(number) = numbers.get(&key) {
        return Ok(*number);
    }
    let number = numbers.len() as u64 + 1;
    numbers.insert(key, number)?;
    Ok(number)
}

/// The counts with a term of that size, which counts where it is new, at a path of that size.
fn counts_with(counts: TermCount, is_new: bool, size: u64, path_size: u64) -> TermCount
    ensures { result ≡ record {
      count = capped (counts.count + (if is_new then 1 else 0));
      bytes = capped (counts.bytes + (if is_new then size else 0));
      longest_path = max counts.longest_path path_size;
    } }
{
    let longest_path = counts.longest_path.max(path_size);
    if is_new {
        TermCount {
            count: counts.count.saturating_add(1),
            bytes: counts.bytes.saturating_add(size),
            longest_path,
        }
    } else {
        TermCount {
            longest_path,
            ..counts
        }
    }
}
