//! The functions of lists, on their arguments.
ghost use Rattle.std.specs.Prelude.{◌≡◌, IfOk};
ghost use Rattle.ax_mean.specs.Functions.{call as call_value};
ghost use Rattle.ax_mean.specs.ListFunctions.{on_list_and_number, on_list_and_numbers, slice_from as elements_from, slice_of as elements_of};
ghost use Rattle.ax_mean.specs.Values.{of_list as list_value};

use crate::arguments::{only, three, two};
use crate::lists;
use crate::out_of_memory::Memory;
use crate::seen::Seen;
use crate::texts::whole;
use crate::values::{list_of, number_of, of_number, of_trees};
use ax_mean::{Func, Value};
use std::alloc::Global;

pub fn length(args: &[Seen]) -> Result<Value, Memory>
    ensures { IfOk result (λ value. value ≡ call_value Func.ArrayLength args.now) }
{
    let Some(value) = only(args) else {
        return Ok(Value::Undefined);
    };
    match list_of(value) {
        Some(items) => Ok(of_number(Some(whole(items.as_slice().len())?))),
        None => Ok(Value::Undefined),
    }
}

pub fn contains(args: &[Seen]) -> Value
    ensures { result ≡ call_value Func.ArrayContains args.now }
{
    match two(args) {
        Some((list, value)) => lists::contains(list, value),
        None => Value::Undefined,
    }
}

pub fn concat(alloc: Global, args: &[Seen]) -> Result<Value, Memory>
    ensures { IfOk result (λ value. value ≡ call_value Func.ArrayConcat args.now) }
{
    match lists::joined(alloc, args)? {
        Some(items) => Ok(of_trees(items)),
        None => Ok(Value::Undefined),
    }
}

pub fn slice(alloc: Global, args: &[Seen]) -> Result<Value, Memory>
    ensures { IfOk result (λ value. value ≡ call_value Func.ArraySlice args.now) }
{
    if let Some((list, start)) = two(args) {
        return slice_from(alloc, list, start);
    }
    match three(args) {
        Some((list, start, length)) => slice_of(alloc, list, start, length),
        None => Ok(Value::Undefined),
    }
}

fn slice_from(alloc: Global, list: &Seen, start: &Seen) -> Result<Value, Memory>
    ensures { IfOk result (λ value. value ≡ list_value (on_list_and_number elements_from list.now start.now)) }
{
    match (list_of(list), number_of(start)) {
        (Some(items), Some(start)) => Ok(of_trees(lists::copies(
            alloc,
            lists::slice(items.as_slice(), start),
        )?)),
        _ => Ok(Value::Undefined),
    }
}

fn slice_of(alloc: Global, list: &Seen, start: &Seen, length: &Seen) -> Result<Value, Memory>
    ensures { IfOk result (λ value. value ≡ list_value (on_list_and_numbers elements_of list.now start.now length.now)) }
{
    match (list_of(list), number_of(start), number_of(length)) {
        (Some(items), Some(start), Some(length)) => Ok(of_trees(lists::copies(
            alloc,
            lists::slice_to(items.as_slice(), start, length),
        )?)),
        _ => Ok(Value::Undefined),
    }
}
