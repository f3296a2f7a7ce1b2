ghost use Rattle.std.specs.Prelude.{◌≡◌, ℕ, List, [], ◌∷◌, ◌++◌, ◌-◌, map, take, length, IfOk, OnOk, OnErr};
ghost use Rattle.std.specs.Option.{option_copied};
ghost use Rattle.ax_mean.specs.Meaning.{bound};
ghost use Rattle.ax_mean.specs.Rows.{first_bound};
ghost use Rattle.ax_mean.specs.Values.{of_tree};
ghost use Rattle.ax_mean.specs.declared.value.Value.{Value};
ghost use Rattle.ax_mean.specs.declared.value.Value.TheVariants.{Defined};
ghost use Rattle.ax_eval.specs.Bindings.{binding_pair};

use crate::env::Env;
use crate::out_of_memory::Memory;
use ax_mean::{Text, Tree, Value};
use std::alloc::Global;
use std::marker::Model;

/// Aliases, each with the tree that it stands for, which stands elsewhere and is not copied.
/// Contracts see an environment, in the order in which the aliases were pushed. Where an alias
/// stands more than once, the first counts.
#[derive(Debug, Drop)]
pub struct Scope<'a> {
    bindings: Vec<Binding<'a>>,
}

#[derive(Debug, Drop)]
struct Binding<'a> {
    alias: &'a Text,
    /// None where the alias stands for undefined.
    tree: Option<&'a Tree>,
}

impl<'a> Model for Scope<'a> {
    ghost use Rattle.std.specs.Prelude.{List, ℕ, map};
    ghost use Rattle.std.specs.Coded.{coded_list, coded×, coded_ℕ};
    ghost use Rattle.ax_mean.specs.contracts.value.Value as value;
    ghost use Rattle.ax_mean.specs.declared.value.Value as values;

    ghost Value = { List (List ℕ × values.Value) };

    ghost coded = { coded_list (coded× (coded_list coded_ℕ) value.the_row.coded) };

    ghost use Rattle.ax_eval.specs.Bindings.{binding_pair};

    ghost view = { λ scope. map binding_pair scope.bindings.items };
}

impl<'a> Scope<'a> {
    pub fn new(alloc: Global) -> Scope<'a>
        ensures { result ≡ [] }
    {
        Scope {
            bindings: Vec::new(alloc),
        }
    }

    /// Binds an alias to a tree, behind those that are there. Unchanged where memory runs out.
    pub fn push(&mut self, alias: &'a Text, tree: &'a Tree) -> Result<(), Memory>
        ensures ok { OnOk result (self.new ≡ self.old ++ (alias.now, Defined tree.now) ∷ []) }
        ensures err { OnErr result (self.new ≡ self.old) }
    {
        let tree = Some(tree);
        self.bindings.push(Binding { alias, tree })?;
        Ok(())
    }

    /// Binds an alias to a value, behind those that are there. Unchanged where memory runs out.
    pub fn push_value(&mut self, alias: &'a Text, value: &'a Value) -> Result<(), Memory>
        ensures ok { OnOk result (self.new ≡ self.old ++ (alias.now, value.now) ∷ []) }
        ensures err { OnErr result (self.new ≡ self.old) }
    {
        let tree = tree_of(value);
        self.bindings.push(Binding { alias, tree })?;
        Ok(())
    }

    /// Takes away the alias that was bound last.
    pub fn pop(&mut self)
        ensures rest { self.new ≡ take (length self.old - 1) self.old }
        ensures undone { (before : List (List ℕ × Value)) → (pair : List ℕ × Value)
            → self.old ≡ before ++ pair ∷ [] → self.new ≡ before }
    {
        let _ = self.bindings.pop();
    }

    /// The tree that the alias bound first stands for; none where that is undefined, or none is bound.
    pub fn first(&self) -> Option<&'a Tree>
        ensures { of_tree (option_copied result) ≡ first_bound self.now }
    {
        match self.bindings.first() {
            Some(binding) => binding.tree,
            None => None,
        }
    }

    /// The same aliases with copies of what they stand for.
    pub fn to_env(&self, alloc: Global) -> Result<Env, Memory>
        ensures { IfOk result (λ env. env ≡ self.now) }
    {
        copies_of(alloc, self.bindings.as_slice())
    }

    /// The tree that an alias stands for; none where that is undefined, or the alias is not bound.
    pub fn get(&self, alias: &str) -> Option<&'a Tree>
        ensures { of_tree (option_copied result) ≡ bound self.now alias.now }
    {
        tree_bound(self.bindings.as_slice(), alias)
    }
}

fn copies_of(alloc: Global, bindings: &[Binding]) -> Result<Env, Memory>
    ensures { IfOk result (λ env. env ≡ map binding_pair bindings.now) }
{
    let mut env = Env::new(alloc);
    for binding in bindings {
        env.push(binding.alias.copy(alloc)?, copy_of(alloc, binding.tree)?)?;
    }
    Ok(env)
}

fn copy_of(alloc: Global, tree: Option<&Tree>) -> Result<Value, Memory>
    ensures { IfOk result (λ value. value ≡ of_tree (option_copied tree.entry)) }
{
    match tree {
        None => Ok(Value::Undefined),
        Some(tree) => Ok(Value::Defined(tree.copy(alloc)?)),
    }
}

fn tree_of(value: &Value) -> Option<&Tree>
    ensures { of_tree (option_copied result) ≡ value.now }
{
    match value {
        Value::Undefined => None,
        Value::Defined(tree) => Some(tree),
    }
}

fn tree_bound<'a>(bindings: &[Binding<'a>], alias: &str) -> Option<&'a Tree>
    ensures { of_tree (option_copied result) ≡ bound (map binding_pair bindings.now) alias.now }
{
    for binding in bindings {
        if binding.alias.as_str() == alias {
            return binding.tree;
        }
    }
    None
}
