//! The tests of kind.
ghost use Rattle.std.specs.Prelude.{◌≡◌, ◌≤◌};
ghost use Rattle.ax_mean.specs.Comparison.{is_scalar as scalar_test};
ghost use Rattle.ax_mean.specs.declared.value.Value.TheVariants.{Defined};
ghost use Rattle.ax_mean.specs.Functions.{call as call_value, of_one, is_of_kind as kind_test};

use crate::arguments::only;
use crate::comparison::kind;
use crate::seen::Seen;
use crate::values::of_truth;
use ax_mean::{Func, Tree, Value};

pub fn is_defined(args: &[Seen]) -> Value
    ensures { result ≡ call_value Func.IsDefined args.now }
{
    match only(args) {
        Some(value) => of_truth(Some(value.is_defined())),
        None => Value::Undefined,
    }
}

/// Whether the value is of that kind; undefined is of none.
pub fn is_of_kind(args: &[Seen], wanted: u8) -> Value
    requires { 1 ≤ wanted }
    ensures { result ≡ of_one (kind_test wanted) args.now }
{
    let Some(value) = only(args) else {
        return Value::Undefined;
    };
    match value.tree() {
        None => of_truth(Some(false)),
        Some(tree) => of_truth(Some(kind(tree) == wanted)),
    }
}

pub fn is_primitive(args: &[Seen]) -> Value
    ensures { result ≡ call_value Func.IsPrimitive args.now }
{
    let Some(value) = only(args) else {
        return Value::Undefined;
    };
    match value.tree() {
        None => of_truth(Some(false)),
        Some(tree) => of_truth(Some(is_scalar(tree))),
    }
}

fn is_scalar(tree: &Tree) -> bool
    ensures { result ≡ scalar_test (Defined tree.now) }
{
    !matches!(tree, Tree::List(_) | Tree::Object(_))
}
