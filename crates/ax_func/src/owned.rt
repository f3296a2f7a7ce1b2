//! The operators and functions on owned values.
ghost use Rattle.std.specs.Prelude.{◌≡◌, IfOk};
ghost use Rattle.ax_mean.specs.Functions.{call as call_value};
ghost use Rattle.ax_mean.specs.Operators.{binary as binary_value, unary as unary_value};

use crate::calls::call_seen;
use crate::operators::{binary_seen, unary_seen};
use crate::out_of_memory::Memory;
use crate::seen::Seen;
use ax_mean::{BinaryOp, Func, UnaryOp, Value};
use std::alloc::Global;

/// The value of `a op b`.
pub fn binary(alloc: Global, op: BinaryOp, a: &Value, b: &Value) -> Result<Value, Memory>
    ensures { IfOk result (λ value. value ≡ binary_value op a.now b.now) }
{
    binary_seen(alloc, op, &Seen::of(a), &Seen::of(b))
}

/// The value of `op a`.
pub fn unary(op: UnaryOp, a: &Value) -> Result<Value, Memory>
    ensures { IfOk result (λ value. value ≡ unary_value op a.now) }
{
    unary_seen(op, &Seen::of(a))
}

/// The value of a function at its arguments; undefined where it takes another number of them, save
/// that CONCAT and ARRAY_CONCAT join any number. Lengths and positions in texts count Unicode
/// scalar values, those in lists elements.
pub fn call(alloc: Global, func: Func, args: &[Value]) -> Result<Value, Memory>
    ensures { IfOk result (λ value. value ≡ call_value func args.now) }
{
    let args = seen_all(alloc, args)?;
    call_seen(alloc, func, args.as_slice())
}

fn seen_all(alloc: Global, values: &[Value]) -> Result<Vec<Seen>, Memory>
    ensures { IfOk result (λ seen. seen.items ≡ values.now) }
{
    let mut seen = Vec::with_capacity(alloc, values.len())?;
    for value in values {
        seen.push(Seen::of(value))?;
    }
    Ok(seen)
}
