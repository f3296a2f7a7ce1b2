//! The pairs of a base, one after another.

ghost use Rattle.std.specs.Prelude.{◌≡◌, [], ◌∷◌, MatchOption, MatchResult};
ghost use Rattle.ax_leaf.specs.Pairs.{pairs_of};
ghost use Rattle.ax_leaf.specs.Reading.{postings_in};
ghost use Rattle.ax_leaf.specs.TermList.{IsTermList};

use crate::out_of_memory::Memory;
use crate::remaining::{Remaining, change_behind};
use std::alloc::Global;
use std::marker::Model;

/// The pairs of a base that are not yet given, in order. Contracts see the list.
///
/// It holds the term of the next pair, for which it takes memory.
#[derive(Drop)]
pub struct PairCursor<'a> {
    remaining: Remaining<'a>,
}

impl<'a> Model for PairCursor<'a> {
    ghost use Rattle.std.specs.Prelude.{List};
    ghost use Rattle.ax_pair.specs.declared.pair.Pair.{Pair};

    ghost Value = { List Pair };

    ghost use Rattle.ax_leaf.specs.View.{pairs_remaining, IsSpelled};

    ghost view = { λ c. pairs_remaining c.remaining };

    ghost invariant = { λ c. IsSpelled c.remaining };
}

impl<'a> PairCursor<'a> {
    /// Before the first of so many postings.
    pub(crate) fn at_first(alloc: Global, list: &'a [u8], count: usize) -> PairCursor<'a>
        requires { IsTermList count list.now (postings_in count [] list.now) }
        ensures { result ≡ pairs_of (postings_in count [] list.entry.now) }
    {
        let remaining = Remaining {
            term: Vec::new(alloc),
            numbers: None,
            count,
            rest: list,
        };
        PairCursor { remaining }
    }

    /// The number of the next pair, whose term is then in `term`, in place of what was there.
    /// `None` exactly at the end: `term` is then as before. After `Memory` the cursor and `term`
    /// are as before.
    pub fn next(&mut self, term: &mut Vec<u8>) -> Result<Option<u32>, Memory>
        ensures { MatchResult result
            (λ found. MatchOption found
            ((self.old ≡ []) × (self.new ≡ []) × (term.new.items ≡ term.old.items))
            (λ number. self.old ≡ record { term = term.new.items; number = number } ∷ self.new))
            (λ _. (self.new ≡ self.old) × (term.new.items ≡ term.old.items)) }
    {
        self.remaining.reach()?;
        if self.remaining.is_spent() {
            return Ok(None);
        }
        change_behind(term, 0, self.remaining.term.as_slice())?;
        let number = self.remaining.take_number();
        Ok(number)
    }
}
