//! Queries whose rows are documents themselves.
ghost use Rattle.std.specs.Prelude.{◌≡◌, ◌↔◌, IsTrue};
ghost use Rattle.ax_excerpt.specs.ShownDocuments.{ShowsDocument, ShowsFrom, PicksAlias};

use crate::source::is_document;
use ax_mean::{Expr, FromItem, Pick, Query, Text};

/// Whether each row of the query is a document as it is stored: `SELECT *` or `SELECT VALUE c` from
/// documents alone, without DISTINCT and GROUP BY.
pub fn shows_document(query: &Query) -> bool
    ensures { IsTrue result ↔ ShowsDocument query.now }
{
    !query.distinct
        && query.groups.as_slice().is_empty()
        && shows_from(query.froms.as_slice(), &query.pick)
}

fn shows_from(froms: &[FromItem], pick: &Pick) -> bool
    ensures { IsTrue result ↔ ShowsFrom pick.now froms.now }
{
    let [source] = froms else {
        return false;
    };
    is_document(source) && picks_alias(&source.alias, pick)
}

fn picks_alias(alias: &Text, pick: &Pick) -> bool
    ensures { IsTrue result ↔ PicksAlias alias.now pick.now }
{
    match pick {
        Pick::Star => true,
        Pick::Value(expr) => is_alias(alias, expr),
        Pick::Named(_) => false,
    }
}

fn is_alias(alias: &Text, expr: &Expr) -> bool
    ensures { IsTrue result ↔ (expr.now ≡ Expr.Alias alias.now) }
{
    match expr {
        Expr::Alias(name) => name.as_str() == alias.as_str(),
        _ => false,
    }
}
