//! One pass over two rising lists of pairs: those that are old and those that are new.

ghost use Rattle.std.specs.Prelude.{◌≡◌, ◌++◌, List, Some, drop, IfOk, OnOk};
ghost use Rattle.ax_pair.specs.declared.pair.Pair.{Pair};
ghost use Rattle.ax_pair.specs.Order.{pair_cmp};
ghost use Rattle.ax_delta.specs.declared.change.Change.{Change};
ghost use Rattle.ax_keep.specs.Net.{adds, added_first, drop_among, first_cmp, met_by, net};

use ax_delta::Change;
use ax_mean::Memory;
use ax_pair::Pair;
use std::alloc::Global;
use std::cmp::Ordering;
use std::collections::VecDeque;

/// The changes that the pass makes: there are at least as many as the one list has pairs more.
pub(crate) fn netted(alloc: Global, old: Vec<Pair>, new: Vec<Pair>) -> Result<Vec<Change>, Memory>
    ensures { IfOk result (λ changes. changes.items ≡ net old.items new.items) }
{
    let mut changes = Vec::with_capacity(alloc, old.len().abs_diff(new.len()))?;
    let mut left = VecDeque::from(new);
    for pair in old {
        let met = add_up_to(&mut changes, &mut left, &pair)?;
        drop_unless(&mut changes, &mut left, pair, met)?;
    }
    add_others(&mut changes, &mut left)?;
    Ok(changes)
}

/// How a pair compares with another, by term and then by number.
fn cmp_pairs(a: &Pair, b: &Pair) -> Ordering
    ensures { result ≡ pair_cmp a.now b.now }
{
    let terms = a.term.as_slice().cmp(b.term.as_slice());
    terms.then(a.number.cmp(&b.number))
}

/// How the first of the pairs that are left compares with a pair. `None` exactly where none is left.
fn cmp_first(left: &VecDeque<Pair>, pair: &Pair) -> Option<Ordering>
    ensures { result ≡ first_cmp left.now.items pair.now }
{
    match left.front() {
        Some(first) => Some(cmp_pairs(first, pair)),
        None => None,
    }
}

/// Adds the first of the pairs that are left.
fn add_first(changes: &mut Vec<Change>, left: &mut VecDeque<Pair>) -> Result<(), Memory>
    ensures added { OnOk result (changes.new.items ≡ changes.old.items ++ added_first left.old.items) }
    ensures left { OnOk result (left.new.items ≡ drop 1 left.old.items) }
{
    match left.pop_front() {
        Some(pair) => {
            changes.push(Change { add: true, pair })?;
            Ok(())
        }
        None => Ok(()),
    }
}

/// Adds the pairs before another. Is the one behind them the same?
#[tactic(auto, using(crate::proofs::Stepping::adding_up))]
fn add_up_to(
    changes: &mut Vec<Change>,
    left: &mut VecDeque<Pair>,
    pair: &Pair,
) -> Result<bool, Memory>
    ensures put { OnOk result ((others : List Pair → List Change)
        → changes.new.items ++ drop_among pair.now others left.new.items
        ≡ changes.old.items ++ drop_among pair.now others left.old.items) }
    ensures met { IfOk result (λ met. met_by (first_cmp left.new.items pair.now) ≡ Some met) }
{
    while let Some(order) = cmp_first(left, pair) {
        match order {
            Ordering::Less => add_first(changes, left)?,
            Ordering::Equal => return Ok(true),
            Ordering::Greater => return Ok(false),
        }
    }
    Ok(false)
}

/// Drops a pair, unless the first of those that are left is the same, as is said.
#[tactic(auto, using(crate::proofs::Stepping::dropping))]
fn drop_unless(
    changes: &mut Vec<Change>,
    left: &mut VecDeque<Pair>,
    pair: Pair,
    met: bool,
) -> Result<(), Memory>
    requires { met_by (first_cmp left.old.items pair) ≡ Some met }
    ensures { OnOk result ((others : List Pair → List Change)
        → changes.new.items ++ others left.new.items
        ≡ changes.old.items ++ drop_among pair others left.old.items) }
{
    if met {
        pass_first(left);
        return Ok(());
    }
    changes.push(Change { add: false, pair })?;
    Ok(())
}

/// Lets the first of the pairs that are left go.
fn pass_first(left: &mut VecDeque<Pair>)
    ensures { left.new.items ≡ drop 1 left.old.items }
{
    let first = left.pop_front();
    drop(first);
}

/// Adds all pairs that are left.
#[tactic(auto, using(crate::proofs::Stepping::adding_others))]
fn add_others(changes: &mut Vec<Change>, left: &mut VecDeque<Pair>) -> Result<(), Memory>
    ensures { OnOk result (changes.new.items ≡ changes.old.items ++ adds left.old.items) }
{
    while !left.is_empty() {
        add_first(changes, left)?;
    }
    Ok(())
}
