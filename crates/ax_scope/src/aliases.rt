//! The aliases that a query declares, and where each is used.
ghost use Rattle.std.specs.Prelude.{◌≡◌, ◌∷◌, [], IfOk, map};
ghost use Rattle.std.specs.List.{list_all};
ghost use Rattle.ax_grammar.specs.Parts.{are_declared as declared_in};
ghost use Rattle.ax_grammar.specs.Scope.{aliases_of as aliases_in, first_alias as alias_first, are_distinct as distinct, bases_declared as bases_in, exprs_optional};
ghost use Rattle.ax_scope.specs.AsWritten.{source_of, joined_of, written_of};

use crate::declared::{are_declared, has};
use crate::names::alias_of;
use crate::written::{JoinedList, NameList, Source, Written};
use ax_mean::{Expr, ExprList, Items, Memory, Text};
use std::alloc::Global;

/// The aliases that FROM and JOIN declare.
pub(crate) fn aliases_of(alloc: Global, written: &Written) -> Result<NameList, Memory>
    ensures { IfOk result (λ names. names ≡ aliases_in (written_of written.now)) }
{
    let mut names = Items::new(alloc);
    names.push(first_alias(&written.source).copy(alloc)?)?;
    for joined in written.joins.as_slice() {
        names.push(joined.alias.copy(alloc)?)?;
    }
    Ok(names)
}

/// The alias of the first source, and the container's name where it has none.
pub(crate) fn first_alias(source: &Source) -> &Text
    ensures { result.now ≡ alias_first (source_of source.now) }
{
    match alias_of(source) {
        Some(alias) => alias,
        None => &source.container,
    }
}

/// Whether no name of a few stands twice.
pub(crate) fn are_distinct(names: &[Text]) -> bool
    ensures { result ≡ distinct names.now }
{
    let mut rest = names;
    while let [name, after @ ..] = rest {
        if has(after, name) {
            return false;
        }
        rest = after;
    }
    true
}

/// Whether each join begins with an alias that is declared before it.
#[tactic(auto, using(crate::proofs::Bases::bases_after_first))]
pub(crate) fn bases_declared(
    alloc: Global,
    first: &Text,
    joins: &JoinedList,
) -> Result<bool, Memory>
    ensures { IfOk result (λ all. all ≡ bases_in (first.now ∷ []) (map joined_of joins.now)) }
{
    let mut declared = Items::new(alloc);
    declared.push(first.copy(alloc)?)?;
    for joined in joins.as_slice() {
        if !has(declared.as_slice(), &joined.base) {
            return Ok(false);
        }
        declared.push(joined.alias.copy(alloc)?)?;
    }
    Ok(true)
}

pub(crate) fn condition_declared(condition: &Option<Expr>, aliases: &NameList) -> bool
    ensures { result ≡ list_all (declared_in aliases.now) (exprs_optional condition.now) }
{
    match condition {
        None => true,
        Some(expr) => are_declared(expr, aliases),
    }
}

pub(crate) fn groups_declared(groups: &ExprList, aliases: &NameList) -> bool
    ensures { result ≡ list_all (declared_in aliases.now) groups.now }
{
    for group in groups.as_slice() {
        if !are_declared(group, aliases) {
            return false;
        }
    }
    true
}
