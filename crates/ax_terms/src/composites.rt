//! The terms of composites.
ghost use Rattle.std.specs.Prelude.{◌≡◌, ◌++◌, map, IfOk, OnOk};
ghost use Rattle.std.specs.Option.{option_copied};
ghost use Rattle.ax_mean.specs.Rows.{along_path, along_step};
ghost use Rattle.ax_mean.specs.Values.{of_tree};
ghost use Rattle.ax_mean.specs.declared.value.Value.TheVariants.{Defined};
ghost use Rattle.ax_policy.specs.Ordering.{offered};
ghost use Rattle.ax_term.specs.CutValues.{cut_value};
ghost use Rattle.ax_terms.specs.TermsOf.{composite_term_of, value_at as value_in};

use crate::term_value::value_or_undefined;
use ax_mean::{Items, Memory, Order, Path, Step, Tree};
use ax_policy::{Composite, Policy};
use ax_term::{Bytes, TermValue, composite_term};
use std::alloc::Global;

/// The most paths of a composite that a term can have.
const MOST_PATHS: usize = 255;

/// Appends the terms of the composites that the policy offers, of which it has at most eight.
pub(crate) fn append_composites(
    alloc: Global,
    policy: &Policy,
    tree: &Tree,
    terms: &mut Vec<Bytes>,
) -> Result<(), Memory>
    ensures { OnOk result (terms.new.items
        ≡ terms.old.items ++ map (composite_term_of tree.now) (offered policy.now)) }
{
    for at in 0..u8::MAX {
        let Some(composite) = policy.composite(at) else {
            return Ok(());
        };
        terms.push(term_of(alloc, composite, tree)?)?;
    }
    Err(Memory)
}

fn term_of(alloc: Global, composite: &Composite, tree: &Tree) -> Result<Bytes, Memory>
    ensures { IfOk result (λ bytes. bytes ≡ composite_term_of tree.now composite.now) }
{
    let columns = composite.as_slice();
    if columns.len() > MOST_PATHS {
        return Err(Memory);
    }
    let values = values_at(alloc, columns, tree)?;
    let bytes = composite_term(alloc, composite, values.as_slice())?;
    Ok(Items::from_vec(bytes))
}

fn values_at(alloc: Global, columns: &[Order], tree: &Tree) -> Result<Vec<TermValue>, Memory>
    ensures { IfOk result (λ values.
        map cut_value values.items ≡ map (value_in tree.now) columns.now) }
{
    let mut values = Vec::with_capacity(alloc, columns.len())?;
    for column in columns {
        values.push(value_at(alloc, column, tree)?)?;
    }
    Ok(values)
}

fn value_at(alloc: Global, column: &Order, tree: &Tree) -> Result<TermValue, Memory>
    ensures { IfOk result (λ value. cut_value value ≡ value_in tree.now column.now) }
{
    value_or_undefined(alloc, tree_at(tree, &column.path))
}

fn tree_at<'a>(tree: &'a Tree, path: &Path) -> Option<&'a Tree>
    ensures { of_tree (option_copied result) ≡ along_path (Defined tree.now) path.now }
{
    let mut part = tree;
    for step in path.as_slice() {
        let Some(next) = named_part(part, step) else {
            return None;
        };
        part = next;
    }
    Some(part)
}

fn named_part<'a>(tree: &'a Tree, step: &Step) -> Option<&'a Tree>
    ensures { of_tree (option_copied result) ≡ along_step (Defined tree.now) step.now }
{
    match step {
        Step::Name(name) => tree.member(name.as_str()),
        Step::Item => None,
    }
}
