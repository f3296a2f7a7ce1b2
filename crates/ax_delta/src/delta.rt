//! A payload that was checked: what it says of a pair.

ghost use Rattle.std.specs.Prelude.{◌≡◌, ℕ, ◌++◌, ◌<◌, ◌^◌, List, IfSome, IsSomeAnd, OnOk, IfOk};
ghost use Rattle.ax_gap.specs.Varint.{varint};
ghost use Rattle.ax_delta.specs.Changes.{TermChange, changes_of};
ghost use Rattle.ax_delta.specs.Payload.{AreTermChanges, IsDelta};
ghost use Rattle.ax_delta.specs.Said.{said_of};
ghost use Rattle.ax_delta.specs.View.{IsReady, changes_left};

use crate::changes_left::ChangesLeft;
use crate::checking::is_change_list;
use crate::looking::look_in;
use crate::numbers_left::NumbersLeft;
use crate::out_of_memory::Memory;
use ax_pair::{Pair, split_number};
use std::alloc::Global;
use std::marker::Model;

/// The payload of a delta that was checked. It borrows the payload, and takes no memory.
///
/// Contracts see its term changes.
#[derive(Drop)]
pub struct Delta<'a> {
    // How many term changes there are, and their bytes.
    count: usize,
    list: &'a [u8],
}

impl<'a> Model for Delta<'a> {
    ghost use Rattle.std.specs.Prelude.{List};
    ghost use Rattle.ax_delta.specs.Changes.{TermChange};

    ghost Value = { List TermChange };

    ghost use Rattle.ax_delta.specs.View.{changes_seen, IsSeen};

    ghost view = { changes_seen };

    ghost invariant = { IsSeen };
}

impl<'a> Delta<'a> {
    /// What the delta says of a pair: `Some(true)` where it adds it, `Some(false)` where it drops it,
    /// `None` where it says nothing. It takes no memory, and goes over the terms once.
    pub fn look(&self, pair: &Pair) -> Option<bool>
        ensures { result ≡ said_of pair.now self.now }
    {
        look_in(self.list, self.count, pair.term.as_slice(), pair.number)
    }

    /// Its changes, in order, none of them taken.
    pub(crate) fn changes(&self, alloc: Global) -> Result<ChangesLeft<'_>, Memory>
        ensures ready { IfOk result (λ changes. IsReady changes) }
        ensures are { OnOk result (AreTermChanges self.now) }
        ensures all { IfOk result (λ changes. changes_left changes ≡ changes_of self.now) }
    {
        let mut changes = ChangesLeft {
            term: Vec::new(alloc),
            added: NumbersLeft::none(),
            dropped: NumbersLeft::none(),
            count: self.count,
            rest: self.list,
        };
        changes.reach()?;
        Ok(changes)
    }
}

/// The delta whose payload the bytes are. `None` exactly where they are the payload of none.
pub fn check(payload: &[u8]) -> Option<Delta<'_>>
    ensures found { IfSome result (λ delta. IsDelta payload.now delta) }
    ensures only { (changes : List TermChange) → IsDelta payload.now changes → IsSomeAnd result (λ delta. delta ≡ changes) }
{
    let (count, list) = split_count(payload)?;
    if !is_change_list(list, count) {
        return None;
    }
    Some(Delta { count, list })
}

/// The number of terms with which a payload begins, and the bytes behind it. `None` exactly where it
/// begins with none, or with 0.
fn split_count(payload: &[u8]) -> Option<(usize, &[u8])>
    ensures found { IfSome result (λ x. payload.now ≡ varint x.0 ++ x.1.now) }
    ensures fits { IfSome result (λ x. (0 < x.0) × (x.0 < 2 ^ 32)) }
    ensures only { (n : ℕ) (rest : List ℕ) → 0 < n → n < 2 ^ 32 → payload.now ≡ varint n ++ rest
        → IsSomeAnd result (λ x. (x.0 ≡ n) × (x.1.now ≡ rest)) }
{
    let (count, list) = split_number(payload)?;
    if count == 0 {
        return None;
    }
    Some((count as usize, list))
}
