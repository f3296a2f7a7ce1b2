ghost use Rattle.std.specs.Prelude.{◌≡◌, false};
ghost use Rattle.ax_mean.specs.declared.value.Value.TheVariants.{Defined};
ghost use Rattle.ax_mean.specs.Values.{number_of as number_held};
ghost use Rattle.ax_group.specs.Tallies.{start as tally_start, one_more as count_more, sum_more as sum_tally, least_more as least_tally, greatest_more as greatest_tally, with_tree as tally_with_tree, tally_with, value_of};
ghost use Rattle.ax_result.specs.Totals.{counted as count_value, is_composed as composed_value, lesser as lesser_value, greater as greater_value};

use crate::exact_sum::ExactSum;
use crate::scalar::{compare_scalar, is_above, is_composed};
use ax_mean::{Aggregate, Tree, Value};

/// The greatest number of 64 bits, above which COUNT is undefined.
const MOST: u64 = i64::MAX as u64;

/// What is kept of the values of an aggregate.
#[derive(Debug, Drop)]
pub enum Tally {
    /// How many values are defined; no more than one above the greatest number.
    Count(u64),
    Sum(ExactSum),
    /// The least value, undefined before the first.
    Least(Value),
    /// The greatest value, undefined before the first.
    Greatest(Value),
    /// A value of the first row, whatever comes.
    First(Value),
    /// Undefined whatever comes.
    Undefined,
}

impl Tally {
    /// The tally of no value.
    pub fn start(which: Aggregate) -> Tally
        ensures { result ≡ tally_start which }
    {
        match which {
            Aggregate::Count => Tally::Count(0),
            Aggregate::Sum => Tally::Sum(ExactSum::nothing()),
            Aggregate::Min => Tally::Least(Value::Undefined),
            Aggregate::Max => Tally::Greatest(Value::Undefined),
        }
    }

    /// The tally with one value more.
    pub fn with(self, value: Value) -> Tally
        ensures { result ≡ tally_with self value }
    {
        match value {
            Value::Undefined => self,
            Value::Defined(tree) => self.with_tree(tree),
        }
    }

    fn with_tree(self, tree: Tree) -> Tally
        ensures { result ≡ tally_with_tree self tree }
    {
        match self {
            Tally::Count(count) => Tally::Count(one_more(count)),
            Tally::Sum(sum) => sum_more(sum, &tree),
            Tally::Least(best) => least_more(best, tree),
            Tally::Greatest(best) => greatest_more(best, tree),
            Tally::First(value) => {
                drop(tree);
                Tally::First(value)
            }
            Tally::Undefined => Tally::Undefined,
        }
    }

    /// The value of the aggregate.
    pub fn into_value(self) -> Value
        ensures { result ≡ value_of self }
    {
        match self {
            Tally::Count(count) => counted(count),
            Tally::Sum(sum) => summed(sum),
            Tally::Least(best) => best,
            Tally::Greatest(best) => best,
            Tally::First(value) => value,
            Tally::Undefined => Value::Undefined,
        }
    }
}

fn one_more(count: u64) -> u64
    ensures { result ≡ count_more count }
{
    if count <= MOST { count + 1 } else { count }
}

fn counted(count: u64) -> Value
    ensures { result ≡ count_value count }
{
    if count <= MOST {
        Value::Defined(Tree::Number(count as i64))
    } else {
        Value::Undefined
    }
}

fn summed(sum: ExactSum) -> Value
    ensures { result ≡ value_of (Tally.Sum sum) }
{
    match sum.number() {
        Some(number) => Value::Defined(Tree::Number(number)),
        None => Value::Undefined,
    }
}

fn sum_more(sum: ExactSum, tree: &Tree) -> Tally
    ensures { result ≡ sum_tally sum (number_held (Defined tree.now)) }
{
    match tree {
        Tree::Number(number) => match sum.with(*number) {
            Some(sum) => Tally::Sum(sum),
            None => Tally::Undefined,
        },
        _ => Tally::Undefined,
    }
}

fn least_more(best: Value, tree: Tree) -> Tally
    ensures { result ≡ least_tally best (Defined tree) }
{
    if is_composed(&tree) {
        return Tally::Undefined;
    }
    match best {
        Value::Undefined => Tally::Least(Value::Defined(tree)),
        Value::Defined(best) => Tally::Least(Value::Defined(lesser(best, tree))),
    }
}

fn greatest_more(best: Value, tree: Tree) -> Tally
    ensures { result ≡ greatest_tally best (Defined tree) }
{
    if is_composed(&tree) {
        return Tally::Undefined;
    }
    match best {
        Value::Undefined => Tally::Greatest(Value::Defined(tree)),
        Value::Defined(best) => Tally::Greatest(Value::Defined(greater(best, tree))),
    }
}

/// The lesser of two trees, of which the second is neither a list nor a map.
fn lesser(best: Tree, tree: Tree) -> Tree
    requires { composed_value (Defined tree) ≡ false }
    ensures { Defined result ≡ lesser_value (Defined best) (Defined tree) }
{
    if compare_scalar(&tree, &best).is_lt() {
        tree
    } else {
        best
    }
}

/// The greater of two trees, of which the second is neither a list nor a map.
fn greater(best: Tree, tree: Tree) -> Tree
    requires { composed_value (Defined tree) ≡ false }
    ensures { Defined result ≡ greater_value (Defined best) (Defined tree) }
{
    if is_above(&tree, &best) { tree } else { best }
}
