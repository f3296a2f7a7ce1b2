ghost use Rattle.std.specs.Prelude.{◌≡◌, IfOk};

use ax_tree::{Items, Memory, Tree};
use std::alloc::Global;

/// What an expression stands for: undefined, or a tree.
#[derive(Debug, Drop)]
pub enum Value {
    Undefined,
    Defined(Tree),
}

impl Value {
    /// An equal value.
    pub fn copy(&self, alloc: Global) -> Result<Value, Memory>
        ensures { IfOk result (λ value. value ≡ self.now) }
    {
        match self {
            Value::Undefined => Ok(Value::Undefined),
            Value::Defined(tree) => Ok(Value::Defined(tree.copy(alloc)?)),
        }
    }
}

pub type ValueList = Items<Value>;
