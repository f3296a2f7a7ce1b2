//! The names that sources and items have where none is written.
ghost use Rattle.std.specs.Prelude.{◌≡◌, IfOk, map};
ghost use Rattle.std.specs.Option.{option_copied};
ghost use Rattle.ax_grammar.specs.Names.{is_name as name_text, last_name as last_step_name, as_name as where_name, default_alias as alias_by_default, alias_of as source_alias, own_name as name_of_expr, name_of as item_name, numbered_name as name_by_number, written_or, item_names as names_of_items};
ghost use Rattle.ax_scope.specs.AsWritten.{item_of, source_of};
ghost use Rattle.ax_scope.specs.StepNames.{step_name as name_of_step};

use crate::written::{Item, ItemList, NameList, Source};
use ax_lex::{Keyword, is_word};
use ax_mean::{Expr, Items, Memory, QueryStep, Text};
use std::alloc::Global;

/// The alias of the first source, where it has one.
pub(crate) fn alias_of(source: &Source) -> Option<&Text>
    ensures { option_copied result ≡ source_alias (source_of source.now) }
{
    match &source.alias {
        Some(alias) => Some(alias),
        None => default_alias(&source.container, source.steps.as_slice()),
    }
}

/// The alias of a source for which none is written.
#[tactic(auto, using(crate::proofs::LastNames::alias_of_steps))]
pub(crate) fn default_alias<'a>(container: &'a Text, steps: &'a [QueryStep]) -> Option<&'a Text>
    ensures { option_copied result ≡ alias_by_default container.now steps.now }
{
    match steps {
        [] => Some(container),
        _ => as_name(last_name(steps)),
    }
}

fn as_name(text: Option<&Text>) -> Option<&Text>
    ensures { option_copied result ≡ where_name (option_copied text.entry) }
{
    match text {
        Some(name) => {
            if is_name(name.as_str().as_bytes()) {
                Some(name)
            } else {
                None
            }
        }
        None => None,
    }
}

/// The name of the last step, where it is one to a member.
#[tactic(auto, using(crate::proofs::LastNames::last_from_none))]
fn last_name(steps: &[QueryStep]) -> Option<&Text>
    ensures { option_copied result ≡ last_step_name steps.now }
{
    let mut last = None;
    for step in steps {
        last = step_name(step);
    }
    last
}

fn step_name(step: &QueryStep) -> Option<&Text>
    ensures { option_copied result ≡ name_of_step step.now }
{
    match step {
        QueryStep::Member(name) => Some(name),
        QueryStep::Position(_) => None,
    }
}

/// Whether the text is a word that is no keyword.
fn is_name(text: &[u8]) -> bool
    ensures { result ≡ name_text text.now }
{
    is_word(text) && Keyword::of(text).is_none()
}

/// The last property of a property expression, or an alias that stands alone.
pub(crate) fn own_name(expr: &Expr) -> Option<&Text>
    ensures { option_copied result ≡ name_of_expr expr.now }
{
    match expr {
        Expr::Steps(_, steps) => last_name(steps.as_slice()),
        Expr::Alias(name) => Some(name),
        _ => None,
    }
}

fn name_of(item: &Item) -> Option<&Text>
    ensures { option_copied result ≡ item_name (item_of item.now) }
{
    match &item.name {
        Some(name) => Some(name),
        None => own_name(&item.expr),
    }
}

/// `$1`, `$2` and so on.
pub(crate) fn numbered_name(alloc: Global, number: usize) -> Result<Text, Memory>
    ensures { IfOk result (λ name. name ≡ name_by_number number) }
{
    Ok(Text::from_string(format!(in alloc; "${number}")?))
}

/// The names of the items, where those without a name are `$1`, `$2` and so on.
pub(crate) fn item_names(alloc: Global, items: &ItemList) -> Result<NameList, Memory>
    ensures { IfOk result (λ names. names ≡ names_of_items (map item_of items.now)) }
{
    let mut names = Items::new(alloc);
    let mut number: usize = 1;
    for item in items.as_slice() {
        match name_of(item) {
            Some(name) => names.push(name.copy(alloc)?)?,
            None => {
                names.push(numbered_name(alloc, number)?)?;
                number += 1;
            }
        }
    }
    Ok(names)
}
