//! What is sought in the index for a condition, or for several on one property.
ghost use Rattle.std.specs.Prelude.{◌≡◌};
ghost use Rattle.std.specs.List.{list_all};
ghost use Rattle.std.specs.Option.{option_copied};
ghost use Rattle.ax_plan.specs.Combining as spec;

use ax_atoms::{PathList, RangeList};
use ax_mean::{Path, Step};
use ax_policy::same_path;

/// A term in one of these ranges is sought, of a leaf on which a condition rests, or on which several do.
#[derive(Debug, Drop)]
pub(crate) struct Sought {
    pub(crate) paths: PathList,
    /// Whether every leaf at the paths and below them is meant.
    pub(crate) whole: bool,
    pub(crate) ranges: RangeList,
}

impl Sought {
    /// The path to the property on which it rests: one leaf, to which names alone lead, so that a document has one value there.
    pub(crate) fn property(&self) -> Option<&Path>
        ensures { option_copied result ≡ spec.property_of self.now }
    {
        if self.whole {
            return None;
        }
        match self.paths.as_slice() {
            [path] => named(path),
            _ => None,
        }
    }

    /// Whether what is sought by both is a term in the ranges of both: they rest on one property, and one has one range at
    /// most, so that there are no more ranges than the other has.
    pub(crate) fn combines_with(&self, other: &Sought) -> bool
        ensures { result ≡ spec.are_combined self.now other.now }
    {
        self.is_on_property_of(other)
            && (self.has_one_range_at_most() || other.has_one_range_at_most())
    }

    fn is_on_property_of(&self, other: &Sought) -> bool
        ensures { result ≡ spec.same_property (spec.property_of self.now) (spec.property_of other.now) }
    {
        match self.property() {
            Some(path) => match other.property() {
                Some(own) => same_path(path.as_slice(), own.as_slice()),
                None => false,
            },
            None => false,
        }
    }

    fn has_one_range_at_most(&self) -> bool
        ensures { result ≡ spec.has_one_range_at_most self.now }
    {
        self.ranges.as_slice().len() <= 1
    }
}

/// The path, where its steps are names.
fn named(path: &Path) -> Option<&Path>
    ensures { option_copied result ≡ spec.where_named path.now (list_all spec.is_by_name path.now) }
{
    if are_names(path.as_slice()) {
        Some(path)
    } else {
        None
    }
}

fn are_names(steps: &[Step]) -> bool
    ensures { result ≡ list_all spec.is_by_name steps.now }
{
    for step in steps {
        if !is_by_name(step) {
            return false;
        }
    }
    true
}

fn is_by_name(step: &Step) -> bool
    ensures { result ≡ spec.is_by_name step.now }
{
    match step {
        Step::Name(_) => true,
        Step::Item => false,
    }
}
