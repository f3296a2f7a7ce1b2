//! The functions of numbers.
ghost use Rattle.std.specs.Prelude.{◌≡◌};
ghost use Rattle.ax_mean.specs.Functions.{call as call_value, absolute as absolute_of};

use crate::arguments::only;
use crate::seen::Seen;
use crate::values::{number_of, of_number};
use ax_mean::{Func, Value};

pub fn abs(args: &[Seen]) -> Value
    ensures { result ≡ call_value Func.Abs args.now }
{
    match only(args) {
        Some(value) => match number_of(value) {
            Some(number) => of_number(absolute(number)),
            None => Value::Undefined,
        },
        None => Value::Undefined,
    }
}

/// None for the least number.
fn absolute(number: i64) -> Option<i64>
    ensures { result ≡ absolute_of number }
{
    number.checked_abs()
}

pub fn sign(args: &[Seen]) -> Value
    ensures { result ≡ call_value Func.Sign args.now }
{
    match only(args) {
        Some(value) => match number_of(value) {
            Some(number) => of_number(Some(number.signum())),
            None => Value::Undefined,
        },
        None => Value::Undefined,
    }
}
