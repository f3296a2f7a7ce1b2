//! The functions of queries.
ghost use Rattle.std.specs.Prelude.{◌≡◌, IfOk};
ghost use Rattle.ax_mean.specs.Functions.{call as call_value};

mod kinds;
mod lists;
mod numbers;
mod texts;

use crate::out_of_memory::Memory;
use crate::seen::Seen;
use ax_mean::{Func, Value};
use std::alloc::Global;

/// The value of a function at its arguments; undefined where it takes another number of them, save
/// that CONCAT and ARRAY_CONCAT join any number. Lengths and positions in texts count Unicode
/// scalar values, those in lists elements.
pub fn call_seen(alloc: Global, func: Func, args: &[Seen]) -> Result<Value, Memory>
    ensures { IfOk result (λ value. value ≡ call_value func args.now) }
{
    match func {
        Func::IsDefined => Ok(kinds::is_defined(args)),
        Func::IsNull => Ok(kinds::is_of_kind(args, 1)),
        Func::IsBool => Ok(kinds::is_of_kind(args, 2)),
        Func::IsNumber => Ok(kinds::is_of_kind(args, 3)),
        Func::IsString => Ok(kinds::is_of_kind(args, 4)),
        Func::IsArray => Ok(kinds::is_of_kind(args, 5)),
        Func::IsObject => Ok(kinds::is_of_kind(args, 6)),
        Func::IsPrimitive => Ok(kinds::is_primitive(args)),
        Func::Abs => Ok(numbers::abs(args)),
        Func::Sign => Ok(numbers::sign(args)),
        Func::Length => texts::length(args),
        Func::Concat => texts::concat(alloc, args),
        Func::StartsWith => Ok(texts::starts_with(args)),
        Func::EndsWith => Ok(texts::ends_with(args)),
        Func::Contains => Ok(texts::contains(args)),
        Func::IndexOf => texts::index_of(args),
        Func::Left => texts::left(alloc, args),
        Func::Right => texts::right(alloc, args),
        Func::Substring => texts::substring(alloc, args),
        Func::Reverse => texts::reverse(alloc, args),
        Func::ToString => texts::to_string(alloc, args),
        Func::ArrayLength => lists::length(args),
        Func::ArrayContains => Ok(lists::contains(args)),
        Func::ArrayConcat => lists::concat(alloc, args),
        Func::ArraySlice => lists::slice(alloc, args),
    }
}
