//! What a value holds, and the value of a result.
ghost use Rattle.std.specs.Prelude.{◌≡◌, Some, string_bytes};
ghost use Rattle.std.specs.Option.{option_copied};
ghost use Rattle.ax_mean.specs.Values.{truth_of as truth_held, number_of as number_held, text_of as text_held, list_of as list_held, of_truth as truth_value, of_number as number_value, of_text as text_value, of_list as list_value};

use crate::seen::Seen;
use ax_mean::{Items, Text, Tree, Value};

/// The truth value; none of another value.
pub fn truth_of(value: &Seen) -> Option<bool>
    ensures { result ≡ truth_held value.now }
{
    match value.tree() {
        Some(Tree::Truth(truth)) => Some(*truth),
        _ => None,
    }
}

pub fn number_of(value: &Seen) -> Option<i64>
    ensures { result ≡ number_held value.now }
{
    match value.tree() {
        Some(Tree::Number(number)) => Some(*number),
        _ => None,
    }
}

pub fn text_of<'s>(value: &'s Seen) -> Option<&'s Text>
    ensures { option_copied result ≡ text_held value.now }
{
    match value.tree() {
        Some(Tree::Text(text)) => Some(text),
        _ => None,
    }
}

pub fn list_of<'s>(value: &'s Seen) -> Option<&'s Items<Tree>>
    ensures { option_copied result ≡ list_held value.now }
{
    match value.tree() {
        Some(Tree::List(items)) => Some(items),
        _ => None,
    }
}

/// The value that a truth is: undefined where there is none.
pub fn of_truth(truth: Option<bool>) -> Value
    ensures { result ≡ truth_value truth }
{
    match truth {
        None => Value::Undefined,
        Some(truth) => Value::Defined(Tree::Truth(truth)),
    }
}

pub fn of_number(number: Option<i64>) -> Value
    ensures { result ≡ number_value number }
{
    match number {
        None => Value::Undefined,
        Some(number) => Value::Defined(Tree::Number(number)),
    }
}

pub fn of_string(text: String) -> Value
    ensures { result ≡ text_value (Some (string_bytes text)) }
{
    Value::Defined(Tree::Text(Text::from_string(text)))
}

pub fn of_trees(items: Vec<Tree>) -> Value
    ensures { result ≡ list_value (Some items.items) }
{
    Value::Defined(Tree::List(Items::from_vec(items)))
}
