//! Whether the aliases in an expression are declared.
ghost use Rattle.std.specs.Prelude.{◌≡◌};
ghost use Rattle.ax_grammar.specs.Parts.{are_declared as declared_in, has as has_name};
ghost use Rattle.ax_scope.specs.Forms.{is_declared as declared_itself};

use crate::written::NameList;
use ax_mean::{Expr, Text};

/// Whether each alias in the expression is one of these.
#[tactic(auto, using(crate::proofs::ByForms::parts_decide, crate::proofs::ByForms::undeclared))]
pub(crate) fn are_declared(expr: &Expr, aliases: &NameList) -> bool
    ensures { result ≡ declared_in aliases.now expr.now }
{
    if !is_declared(expr, aliases) {
        return false;
    }
    for part in expr.parts() {
        if !are_declared(part, aliases) {
            return false;
        }
    }
    true
}

/// Whether the expression is one of these aliases, or no alias.
fn is_declared(expr: &Expr, aliases: &NameList) -> bool
    ensures { result ≡ declared_itself aliases.now expr.now }
{
    match expr {
        Expr::Alias(name) => has(aliases.as_slice(), name),
        _ => true,
    }
}

/// Whether the name is among these.
pub(crate) fn has(names: &[Text], name: &Text) -> bool
    ensures { result ≡ has_name names.now name.now }
{
    for other in names {
        if name.as_str() == other.as_str() {
            return true;
        }
    }
    false
}
