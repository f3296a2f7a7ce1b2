//! Conditions on one property are answered together, by the terms that are in the ranges of all of them.
ghost use Rattle.std.specs.Prelude.{◌≡◌, IfOk, map};
ghost use Rattle.ax_plan.specs.Combining as spec;

use crate::parts::UnionList;
use crate::shared_ranges::shared_ranges;
use crate::sought::Sought;
use ax_atoms::RangeList;
use ax_mean::{Items, Memory};
use std::alloc::Global;

/// What is sought, with what rests on one property combined.
pub(crate) fn combined(alloc: Global, sought: Vec<Sought>) -> Result<UnionList, Memory>
    ensures { IfOk result (λ unions. unions ≡ spec.combined_unions sought.items) }
{
    let mut all = Vec::new(alloc);
    for new in sought {
        all = put(alloc, all, new)?;
    }
    unions_of(alloc, all)
}

/// What is sought and one more: combined with each with which it can be, and behind the others.
fn put(alloc: Global, all: Vec<Sought>, new: Sought) -> Result<Vec<Sought>, Memory>
    ensures { IfOk result (λ now. now.items ≡ spec.put new all.items) }
{
    let mut done = Vec::new(alloc);
    let mut left = new;
    for old in all {
        if old.combines_with(&left) {
            left = combine(alloc, old, left)?;
        } else {
            done.push(old)?;
        }
    }
    done.push(left)?;
    Ok(done)
}

/// Both as one, by the ranges of the terms that are in those of both.
fn combine(alloc: Global, mut old: Sought, new: Sought) -> Result<Sought, Memory>
    ensures { IfOk result (λ both. both ≡ spec.combine old new) }
{
    old.ranges = shared_ranges(alloc, old.ranges.as_slice(), new.ranges.as_slice())?;
    Ok(old)
}

/// The ranges of each.
fn unions_of(alloc: Global, all: Vec<Sought>) -> Result<UnionList, Memory>
    ensures { IfOk result (λ unions. unions ≡ map (λ sought. sought.ranges) all.items) }
{
    let mut unions = Vec::new(alloc);
    for sought in all {
        unions.push(ranges_in(sought))?;
    }
    Ok(Items::from_vec(unions))
}

fn ranges_in(sought: Sought) -> RangeList
    ensures { result ≡ sought.ranges }
{
    let Sought {
        paths,
        whole: _,
        ranges,
    } = sought;
    drop(paths);
    ranges
}
