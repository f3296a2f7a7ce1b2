ghost use Rattle.std.specs.Prelude.{◌≡◌, [], ◌∷◌, ◌++◌, OnOk, OnErr, IfOk};

use crate::out_of_memory::Memory;
use crate::scope::Scope;
use ax_func::Seen;
use ax_mean::{Text, Value};
use std::alloc::Global;
use std::marker::Model;

/// Aliases, each with the value that it stands for. Where an alias stands more than once, the first
/// counts.
#[derive(Debug, Drop)]
pub struct Env {
    pairs: Vec<(Text, Value)>,
}

impl Model for Env {
    ghost use Rattle.std.specs.Prelude.{List, ℕ};
    ghost use Rattle.std.specs.Coded.{coded_list, coded×, coded_ℕ};
    ghost use Rattle.ax_mean.specs.contracts.value.Value as value;
    ghost use Rattle.ax_mean.specs.declared.value.Value as values;

    ghost Value = { List (List ℕ × values.Value) };

    ghost coded = { coded_list (coded× (coded_list coded_ℕ) value.the_row.coded) };

    ghost view = { λ env. env.pairs.items };
}

impl Env {
    pub fn new(alloc: Global) -> Env
        ensures { result ≡ [] }
    {
        Env {
            pairs: Vec::new(alloc),
        }
    }

    /// Binds an alias behind those that are there. Unchanged where memory runs out.
    pub fn push(&mut self, alias: Text, value: Value) -> Result<(), Memory>
        ensures ok { OnOk result (self.new ≡ self.old ++ (alias, value) ∷ []) }
        ensures err { OnErr result (self.new ≡ self.old) }
    {
        self.pairs.push((alias, value))?;
        Ok(())
    }

    /// The same aliases, whose values stand here.
    pub fn scope<'a>(&'a self, alloc: Global) -> Result<Scope<'a>, Memory>
        ensures { IfOk result (λ scope. scope ≡ self.now) }
    {
        scope_of(alloc, self.pairs.as_slice())
    }
}

fn scope_of<'a>(alloc: Global, pairs: &'a [(Text, Value)]) -> Result<Scope<'a>, Memory>
    ensures { IfOk result (λ scope. scope ≡ pairs.now) }
{
    let mut scope = Scope::new(alloc);
    for pair in pairs {
        scope.push_value(&pair.0, &pair.1)?;
    }
    Ok(scope)
}
