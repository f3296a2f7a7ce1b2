ghost use Rattle.std.specs.Prelude.{◌≡◌, MatchOption, IfOk};
ghost use Rattle.ax_func.specs.Seen.{value_held};
ghost use Rattle.ax_mean.specs.Values.{is_defined as defined_test};
ghost use Rattle.ax_mean.specs.declared.value.Value.TheVariants.{Undefined, Defined};

use crate::out_of_memory::Memory;
use ax_mean::{Tree, Value};
use std::alloc::Global;
use std::marker::Model;

/// A value whose tree may stand elsewhere, as in a document, and is then not copied. Contracts see
/// the value.
#[derive(Debug, Drop)]
pub struct Seen<'a> {
    held: Held<'a>,
}

/// Where a value stands.
#[derive(Debug, Drop)]
pub enum Held<'a> {
    Undefined,
    /// A tree where it stands, as in a document: it is not copied.
    Here(&'a Tree),
    /// A tree of its own, that was made.
    Made(Tree),
}

impl<'a> Model for Seen<'a> {
    ghost use Rattle.ax_mean.specs.contracts.value.Value as value;
    ghost use Rattle.ax_mean.specs.declared.value.Value as values;

    ghost Value = { values.Value };

    ghost coded = { value.the_row.coded };

    ghost use Rattle.ax_func.specs.Seen.{value_held};

    ghost view = { λ seen. value_held seen.held };
}

impl<'a> Seen<'a> {
    pub fn undefined() -> Seen<'a>
        ensures { result ≡ Undefined }
    {
        Seen {
            held: Held::Undefined,
        }
    }

    /// The tree, where it stands.
    pub fn here(tree: &'a Tree) -> Seen<'a>
        ensures { result ≡ Defined tree.now }
    {
        Seen {
            held: Held::Here(tree),
        }
    }

    /// The value, where it stands.
    pub fn of(value: &'a Value) -> Seen<'a>
        ensures { result ≡ value.now }
    {
        match value {
            Value::Undefined => Seen::undefined(),
            Value::Defined(tree) => Seen::here(tree),
        }
    }

    /// The value, of its own.
    pub fn made(value: Value) -> Seen<'a>
        ensures { result ≡ value }
    {
        match value {
            Value::Undefined => Seen::undefined(),
            Value::Defined(tree) => Seen {
                held: Held::Made(tree),
            },
        }
    }

    /// The tree; none of undefined.
    pub fn tree(&self) -> Option<&Tree>
        ensures { MatchOption result (self.now ≡ Undefined) (λ tree. self.now ≡ Defined tree.now) }
    {
        match &self.held {
            Held::Undefined => None,
            Held::Here(tree) => Some(tree),
            Held::Made(tree) => Some(tree),
        }
    }

    pub fn is_defined(&self) -> bool
        ensures { result ≡ defined_test self.now }
    {
        self.tree().is_some()
    }

    /// Where the value stands.
    pub fn into_held(self) -> Held<'a>
        ensures { value_held result ≡ self.entry }
    {
        let Seen { held } = self;
        held
    }

    /// An equal value.
    pub fn to_value(&self, alloc: Global) -> Result<Value, Memory>
        ensures { IfOk result (λ value. value ≡ self.now) }
    {
        match self.tree() {
            None => Ok(Value::Undefined),
            Some(tree) => Ok(Value::Defined(tree.copy(alloc)?)),
        }
    }

    /// The value; only a tree that stands elsewhere is copied.
    pub fn into_value(self, alloc: Global) -> Result<Value, Memory>
        ensures { IfOk result (λ value. value ≡ self.entry) }
    {
        match self.into_held() {
            Held::Undefined => Ok(Value::Undefined),
            Held::Here(tree) => Ok(Value::Defined(tree.copy(alloc)?)),
            Held::Made(tree) => Ok(Value::Defined(tree)),
        }
    }
}
