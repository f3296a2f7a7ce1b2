//! The changes of a delta, one after another.

ghost use Rattle.std.specs.Prelude.{◌≡◌, ◌↔◌, [], ◌++◌, IsTrue, OnOk, IfOk, drop};
ghost use Rattle.ax_delta.specs.ChangeList.{Spells};
ghost use Rattle.ax_delta.specs.Pass.{first_cmp};
ghost use Rattle.ax_delta.specs.View.{IsReady, changes_left, first_number};

use crate::change::cmp_pair;
use crate::numbers_left::NumbersLeft;
use crate::out_of_memory::Memory;
use crate::short_change::{ShortChange, split_change};
use std::cmp::Ordering;

/// The changes of a delta that are not yet taken, in order: those of the term that was reached, and
/// those of the terms behind it. After `Memory` it is of no more use.
#[derive(Drop)]
pub(crate) struct ChangesLeft<'a> {
    /// The term that was reached: empty before the first.
    pub(crate) term: Vec<u8>,
    /// Its numbers that are not yet taken.
    pub(crate) added: NumbersLeft<'a>,
    pub(crate) dropped: NumbersLeft<'a>,
    /// How many terms are behind it, and their bytes.
    pub(crate) count: usize,
    pub(crate) rest: &'a [u8],
}

impl<'a> ChangesLeft<'a> {
    /// The number that comes first of the term that was reached, and whether it is added. `None`
    /// exactly where it has none.
    pub(crate) fn first(&self) -> Option<(bool, u32)>
        ensures { result ≡ first_number self.now.added self.now.dropped }
    {
        let Some(number) = self.added.first() else {
            let number = self.dropped.first()?;
            return Some((false, number));
        };
        match self.dropped.first() {
            Some(other) if other < number => Some((false, other)),
            _ => Some((true, number)),
        }
    }

    /// Is no change left?
    #[tactic(auto, using(crate::proofs::Taking::at_end, crate::proofs::Taking::not_end))]
    pub(crate) fn is_end(&self) -> bool
        requires { IsReady self.now }
        ensures { IsTrue result ↔ (changes_left self.now ≡ []) }
    {
        self.first().is_none()
    }

    /// How the pair of the first change compares with that of a term and a number. `None` exactly
    /// where no change is left.
    pub(crate) fn cmp_first(&self, term: &[u8], number: u32) -> Option<Ordering>
        requires { IsReady self.now }
        ensures { result ≡ first_cmp (changes_left self.now) (record { term = term.now; number = number }) }
    {
        let Some((_, first)) = self.first() else {
            return None;
        };
        Some(cmp_pair(self.term.as_slice(), first, term, number))
    }

    /// Takes the first change.
    pub(crate) fn take(&mut self) -> Result<(), Memory>
        requires { IsReady self.old }
        ensures ready { OnOk result (IsReady self.new) }
        ensures rest { OnOk result (changes_left self.new ≡ drop 1 (changes_left self.old)) }
    {
        self.take_number();
        self.reach()
    }

    /// Takes the first number of the term that was reached.
    fn take_number(&mut self)
        requires { IsReady self.old }
        ensures spells { Spells self.new.term.items self.new.count self.new.rest.now }
        ensures rest { changes_left self.new ≡ drop 1 (changes_left self.old) }
    {
        let Some((add, _)) = self.first() else {
            return;
        };
        if add {
            self.added.pass();
        } else {
            self.dropped.pass();
        }
    }

    /// Goes to the next term, where no number of the one that was reached is left.
    pub(crate) fn reach(&mut self) -> Result<(), Memory>
        requires { Spells self.old.term.items self.old.count self.old.rest.now }
        ensures ready { OnOk result (IsReady self.new) }
        ensures same { OnOk result (changes_left self.new ≡ changes_left self.old) }
    {
        if self.first().is_some() {
            return Ok(());
        }
        if self.count == 0 {
            return Ok(());
        }
        let Some((change, after)) = split_change(self.rest) else {
            return Ok(());
        };
        let ShortChange {
            term,
            added,
            dropped,
        } = change;
        self.term.truncate(term.shared);
        self.term.extend_from_slice(term.rest)?;
        self.added = NumbersLeft::of(added);
        self.dropped = NumbersLeft::of(dropped);
        self.count -= 1;
        self.rest = after;
        Ok(())
    }
}
