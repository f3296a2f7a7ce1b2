//! The functions of texts, on their arguments.
ghost use Rattle.std.specs.Prelude.{◌≡◌, IfOk};
ghost use Rattle.ax_mean.specs.Functions.{call as call_value};

use crate::arguments::{only, three, two};
use crate::out_of_memory::Memory;
use crate::seen::Seen;
use crate::texts;
use crate::values::{number_of, of_number, of_string, of_truth, text_of};
use ax_mean::{Func, Value};
use std::alloc::Global;

pub fn length(args: &[Seen]) -> Result<Value, Memory>
    ensures { IfOk result (λ value. value ≡ call_value Func.Length args.now) }
{
    let Some(value) = only(args) else {
        return Ok(Value::Undefined);
    };
    match text_of(value) {
        Some(text) => Ok(of_number(Some(texts::length(text.as_str())?))),
        None => Ok(Value::Undefined),
    }
}

pub fn reverse(alloc: Global, args: &[Seen]) -> Result<Value, Memory>
    ensures { IfOk result (λ value. value ≡ call_value Func.Reverse args.now) }
{
    let Some(value) = only(args) else {
        return Ok(Value::Undefined);
    };
    match text_of(value) {
        Some(text) => Ok(of_string(texts::reversed(alloc, text.as_str())?)),
        None => Ok(Value::Undefined),
    }
}

pub fn starts_with(args: &[Seen]) -> Value
    ensures { result ≡ call_value Func.StartsWith args.now }
{
    let Some((text, part)) = two(args) else {
        return Value::Undefined;
    };
    match (text_of(text), text_of(part)) {
        (Some(text), Some(part)) => of_truth(Some(texts::starts_with(
            text.as_str(),
            part.as_str(),
        ))),
        _ => Value::Undefined,
    }
}

pub fn ends_with(args: &[Seen]) -> Value
    ensures { result ≡ call_value Func.EndsWith args.now }
{
    let Some((text, part)) = two(args) else {
        return Value::Undefined;
    };
    match (text_of(text), text_of(part)) {
        (Some(text), Some(part)) => of_truth(Some(texts::ends_with(text.as_str(), part.as_str()))),
        _ => Value::Undefined,
    }
}

pub fn contains(args: &[Seen]) -> Value
    ensures { result ≡ call_value Func.Contains args.now }
{
    let Some((text, part)) = two(args) else {
        return Value::Undefined;
    };
    match (text_of(text), text_of(part)) {
        (Some(text), Some(part)) => of_truth(Some(texts::contains(text.as_str(), part.as_str()))),
        _ => Value::Undefined,
    }
}

pub fn index_of(args: &[Seen]) -> Result<Value, Memory>
    ensures { IfOk result (λ value. value ≡ call_value Func.IndexOf args.now) }
{
    let Some((text, part)) = two(args) else {
        return Ok(Value::Undefined);
    };
    match (text_of(text), text_of(part)) {
        (Some(text), Some(part)) => Ok(of_number(Some(texts::index_of(
            text.as_str(),
            part.as_str(),
        )?))),
        _ => Ok(Value::Undefined),
    }
}

pub fn left(alloc: Global, args: &[Seen]) -> Result<Value, Memory>
    ensures { IfOk result (λ value. value ≡ call_value Func.Left args.now) }
{
    let Some((text, number)) = two(args) else {
        return Ok(Value::Undefined);
    };
    match (text_of(text), number_of(number)) {
        (Some(text), Some(number)) => Ok(of_string(texts::left(alloc, text.as_str(), number)?)),
        _ => Ok(Value::Undefined),
    }
}

pub fn right(alloc: Global, args: &[Seen]) -> Result<Value, Memory>
    ensures { IfOk result (λ value. value ≡ call_value Func.Right args.now) }
{
    let Some((text, number)) = two(args) else {
        return Ok(Value::Undefined);
    };
    match (text_of(text), number_of(number)) {
        (Some(text), Some(number)) => Ok(of_string(texts::right(alloc, text.as_str(), number)?)),
        _ => Ok(Value::Undefined),
    }
}

pub fn substring(alloc: Global, args: &[Seen]) -> Result<Value, Memory>
    ensures { IfOk result (λ value. value ≡ call_value Func.Substring args.now) }
{
    let Some((text, start, length)) = three(args) else {
        return Ok(Value::Undefined);
    };
    match (text_of(text), number_of(start), number_of(length)) {
        (Some(text), Some(start), Some(length)) => Ok(of_string(texts::substring(
            alloc,
            text.as_str(),
            start,
            length,
        )?)),
        _ => Ok(Value::Undefined),
    }
}

pub fn concat(alloc: Global, args: &[Seen]) -> Result<Value, Memory>
    ensures { IfOk result (λ value. value ≡ call_value Func.Concat args.now) }
{
    match texts::joined(alloc, args)? {
        Some(text) => Ok(of_string(text)),
        None => Ok(Value::Undefined),
    }
}

pub fn to_string(alloc: Global, args: &[Seen]) -> Result<Value, Memory>
    ensures { IfOk result (λ value. value ≡ call_value Func.ToString args.now) }
{
    let Some(value) = only(args) else {
        return Ok(Value::Undefined);
    };
    match texts::shown(alloc, value)? {
        Some(text) => Ok(of_string(text)),
        None => Ok(Value::Undefined),
    }
}
