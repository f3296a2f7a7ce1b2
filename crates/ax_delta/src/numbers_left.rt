//! The numbers of a gap list, of which the first is looked at before it is taken.

ghost use Rattle.std.specs.Prelude.{◌≡◌, ◌↔◌, IsTrue, [], drop, slice_get};
ghost use Rattle.ax_gap.specs.Gaps.{IsRisingList};
ghost use Rattle.ax_delta.specs.Payload.{AreDisjoint};
ghost use Rattle.ax_delta.specs.Said.{has_number};

use ax_gap::GapCursor;
use std::marker::Model;

/// Numbers that are not yet taken. Contracts see the list.
#[derive(Drop)]
pub(crate) struct NumbersLeft<'a> {
    first: Option<u32>,
    // Those behind the first.
    behind: Option<GapCursor<'a>>,
}

impl<'a> Model for NumbersLeft<'a> {
    ghost use Rattle.std.specs.Prelude.{ℕ, List};

    ghost Value = { List ℕ };

    ghost use Rattle.ax_delta.specs.View.{numbers_seen};

    ghost view = { numbers_seen };
}

impl<'a> NumbersLeft<'a> {
    /// No numbers.
    pub(crate) fn none() -> NumbersLeft<'a>
        ensures { result ≡ [] }
    {
        NumbersLeft {
            first: None,
            behind: None,
        }
    }

    /// All that the cursor has still to give.
    pub(crate) fn of(mut cursor: GapCursor<'a>) -> NumbersLeft<'a>
        ensures { result ≡ cursor.entry.numbers }
    {
        let first = cursor.next();
        NumbersLeft {
            first,
            behind: Some(cursor),
        }
    }

    /// The first number. `None` exactly where none is left.
    pub(crate) fn first(&self) -> Option<u32>
        ensures { result ≡ slice_get self.now 0 }
    {
        self.first
    }

    /// Takes the first number, where there is one.
    pub(crate) fn pass(&mut self)
        ensures { self.new ≡ drop 1 self.old }
    {
        if self.first.is_none() {
            return;
        }
        self.first = match &mut self.behind {
            None => None,
            Some(behind) => behind.next(),
        };
    }
}

/// Is no number in both lists? Both rise.
#[tactic(auto, using(crate::proofs::Numbers::left_end, crate::proofs::Numbers::left_other_end, crate::proofs::Numbers::left_shared))]
pub(crate) fn are_disjoint(added: GapCursor<'_>, dropped: GapCursor<'_>) -> bool
    requires additions { IsRisingList added.numbers }
    requires removals { IsRisingList dropped.numbers }
    ensures { IsTrue result ↔ AreDisjoint added.entry.numbers dropped.entry.numbers }
{
    let mut added = NumbersLeft::of(added);
    let mut dropped = NumbersLeft::of(dropped);
    while let Some(number) = added.first() {
        let Some(other) = dropped.first() else {
            return true;
        };
        if number == other {
            return false;
        }
        if number < other {
            added.pass();
        } else {
            dropped.pass();
        }
    }
    true
}

/// Is the number in the list? The list rises.
#[tactic(auto, using(ax_gap::proofs::Rising::rises, crate::proofs::Numbers::on_from, crate::proofs::Numbers::here, crate::proofs::Numbers::passed_one, crate::proofs::Numbers::none_there))]
pub(crate) fn has_one(list: GapCursor<'_>, number: u32) -> bool
    requires { IsRisingList list.numbers }
    ensures { result ≡ has_number number list.entry.numbers }
{
    let mut left = list;
    while let Some(found) = left.next() {
        if found >= number {
            return found == number;
        }
    }
    false
}
