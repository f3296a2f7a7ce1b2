//! The terms that are in two unions of ranges.
ghost use Rattle.std.specs.Prelude.{◌≡◌, ◌++◌, IfOk, OnOk};
ghost use Rattle.ax_plan.specs.Combining as spec;

use ax_atoms::RangeList;
use ax_mean::{Items, Memory};
use ax_term::TermRange;
use std::alloc::Global;

/// Ranges of the terms that are in a range of both lists. None is empty.
pub(crate) fn shared_ranges(
    alloc: Global,
    ranges: &[TermRange],
    others: &[TermRange],
) -> Result<RangeList, Memory>
    ensures { IfOk result (λ both. both ≡ spec.shared ranges.now others.now) }
{
    let mut both = Vec::new(alloc);
    for range in ranges {
        append_parts_within(alloc, range, others, &mut both)?;
    }
    Ok(Items::from_vec(both))
}

/// Appends the part of each of the others that is within the range, where there is one.
fn append_parts_within(
    alloc: Global,
    range: &TermRange,
    others: &[TermRange],
    both: &mut Vec<TermRange>,
) -> Result<(), Memory>
    ensures { OnOk result (both.new.items ≡ both.old.items ++ spec.parts_within range.now others.now) }
{
    for other in others {
        let from = later(range.from.as_slice(), other.from.as_slice());
        let below = earlier(range.below.as_slice(), other.below.as_slice());
        if from.cmp(below).is_lt() {
            both.push(range_of(alloc, from, below)?)?;
        }
    }
    Ok(())
}

fn range_of(alloc: Global, from: &[u8], below: &[u8]) -> Result<TermRange, Memory>
    ensures { IfOk result (λ range. range ≡ record { from = from.now; below = below.now }) }
{
    Ok(TermRange {
        from: Items::from_vec(Vec::from_slice(alloc, from)?),
        below: Items::from_vec(Vec::from_slice(alloc, below)?),
    })
}

fn later<'a>(bytes: &'a [u8], others: &'a [u8]) -> &'a [u8]
    ensures { result.now ≡ spec.later bytes.now others.now }
{
    if bytes.cmp(others).is_le() {
        others
    } else {
        bytes
    }
}

fn earlier<'a>(bytes: &'a [u8], others: &'a [u8]) -> &'a [u8]
    ensures { result.now ≡ spec.earlier bytes.now others.now }
{
    if bytes.cmp(others).is_le() {
        bytes
    } else {
        others
    }
}
