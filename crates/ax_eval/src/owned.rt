//! The value of an expression as one of its own, over an environment that owns its values.
ghost use Rattle.std.specs.Prelude.{◌≡◌, IfOk};
ghost use Rattle.ax_mean.specs.Meaning.{meaning};

use crate::env::Env;
use crate::expression::eval_in;
use crate::out_of_memory::Memory;
use ax_mean::{Expr, Value};
use std::alloc::Global;

/// The value of the expression where each alias stands for its value in `env`; an alias that is not
/// there, and an aggregate, are undefined.
pub fn eval(alloc: Global, expr: &Expr, env: &Env) -> Result<Value, Memory>
    ensures { IfOk result (λ value. value ≡ meaning env.now expr.now) }
{
    let scope = env.scope(alloc)?;
    let value = eval_in(alloc, expr, &scope)?;
    Ok(value.into_value(alloc)?)
}
