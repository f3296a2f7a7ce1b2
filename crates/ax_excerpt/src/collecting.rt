//! The excerpt of documents that a query looks at.
ghost use Rattle.std.specs.Prelude.{◌≡◌, [], None, true, false, IfOk, IfSome};
ghost use Rattle.std.specs.List.{list_all};
ghost use Rattle.ax_excerpt.specs.Enough.{is_enough as enough};
ghost use Rattle.ax_excerpt.specs.Excerpts.{keeps, keeps_path, names_before as names_of};
ghost use Rattle.ax_excerpt.specs.Needs.{Grows, IsMore, NeedsAll, are_told, is_told, keeps_all, orders_told};
ghost use Rattle.ax_excerpt.specs.Plain.{are_plain};
ghost use Rattle.ax_excerpt.specs.ShownDocuments.{with_pick, without_pick};

use crate::excerpt::Excerpt;
use crate::growing::with_path;
use crate::keeping::is_whole;
use crate::paths::{StepPath, paths_of};
use ax_mean::{
    Expr, Members, Memory, OrderList, Path, Pick, Query, QueryStep, Shared, Step, Tree, Value,
};
use std::alloc::Global;

/// So many names of a path are told apart at most: all that they lead to is kept.
const MOST_NAMES: u32 = 64;

/// The excerpt that keeps what the query looks at and next to nothing else. `None`: documents are to
/// be read whole, since no part of a document is enough for the query.
pub fn excerpt_for(alloc: Global, query: &Query) -> Result<Option<Excerpt>, Memory>
    ensures found { IfOk result (λ found. IfSome found (λ excerpt.
        (enough excerpt query.now ≡ true) × (are_plain excerpt ≡ true))) }
    ensures part { IfOk result (λ found. IfSome found (λ excerpt. keeps excerpt [] ≡ false)) }
    ensures whole { IfOk result (λ found. found ≡ None → NeedsAll query.now) }
{
    excerpt_showing(alloc, query, &query.pick)
}

/// The same for the keys of a query's rows, whatever it shows: for a query whose rows are documents
/// themselves, which are printed as they are stored.
pub fn excerpt_for_keys(alloc: Global, query: &Query) -> Result<Option<Excerpt>, Memory>
    ensures found { IfOk result (λ found. IfSome found (λ excerpt.
        (enough excerpt (without_pick query.now) ≡ true) × (are_plain excerpt ≡ true))) }
    ensures part { IfOk result (λ found. IfSome found (λ excerpt. keeps excerpt [] ≡ false)) }
    ensures whole { IfOk result (λ found. found ≡ None → NeedsAll (without_pick query.now)) }
{
    let null = Shared::new(alloc, Value::Defined(Tree::Null))?;
    let nothing = Pick::Value(Expr::Literal(null));
    excerpt_showing(alloc, query, &nothing)
}

/// The excerpt for the query where it shows the pick in place of its own.
fn excerpt_showing(alloc: Global, query: &Query, pick: &Pick) -> Result<Option<Excerpt>, Memory>
    ensures found { IfOk result (λ found. IfSome found (λ excerpt.
        (enough excerpt (with_pick pick.now query.now) ≡ true) × (are_plain excerpt ≡ true))) }
    ensures part { IfOk result (λ found. IfSome found (λ excerpt. keeps excerpt [] ≡ false)) }
    ensures whole { IfOk result (λ found. found ≡ None → NeedsAll (with_pick pick.now query.now)) }
{
    let paths = paths_of(alloc, query, pick)?;
    let Ok(excerpt) = excerpt_along(alloc, paths.as_slice()) else {
        drop(paths);
        return Err(Memory);
    };
    drop(paths);
    let excerpt = with_orders(alloc, excerpt, &query.orders)?;
    Ok(where_less(excerpt))
}

/// The excerpt, where it keeps less than all.
fn where_less(excerpt: Excerpt) -> Option<Excerpt>
    ensures some { IfSome result (λ kept. (kept ≡ excerpt) × (keeps kept [] ≡ false)) }
    ensures none { result ≡ None → keeps excerpt [] ≡ true }
{
    if is_whole(&excerpt) {
        drop(excerpt);
        None
    } else {
        Some(excerpt)
    }
}

/// The excerpt that keeps what the paths lead to.
fn excerpt_along(alloc: Global, paths: &[StepPath<'_>]) -> Result<Excerpt, Memory>
    ensures kept { IfOk result (λ excerpt. keeps_all excerpt paths.now ≡ true) }
    ensures plain { IfOk result (λ excerpt. are_plain excerpt ≡ true) }
    ensures part { are_told paths.now ≡ true → IfOk result (λ excerpt. keeps excerpt [] ≡ false) }
{
    let mut excerpt = Excerpt::Part(Members::new(alloc));
    for path in paths {
        excerpt = with_path(alloc, excerpt, path, MOST_NAMES)?;
    }
    Ok(excerpt)
}

/// The excerpt that keeps also what ORDER BY looks at.
fn with_orders(alloc: Global, excerpt: Excerpt, orders: &OrderList) -> Result<Excerpt, Memory>
    ensures kept { IfOk result (λ new. list_all (λ order. keeps_path new order.path) orders.now ≡ true) }
    ensures more { IfOk result (λ new. IsMore excerpt new) }
    ensures plain { are_plain excerpt ≡ true → IfOk result (λ new. are_plain new ≡ true) }
    ensures part { orders_told orders.now ≡ true → keeps excerpt [] ≡ false
        → IfOk result (λ new. keeps new [] ≡ false) }
{
    let mut grown = excerpt;
    for order in orders.as_slice() {
        grown = with_order(alloc, grown, &order.path)?;
    }
    Ok(grown)
}

fn with_order(alloc: Global, excerpt: Excerpt, path: &Path) -> Result<Excerpt, Memory>
    ensures grown { IfOk result (λ new. Grows excerpt (names_of path.now) new) }
    ensures part { is_told (names_of path.now) ≡ true → keeps excerpt [] ≡ false
        → IfOk result (λ new. keeps new [] ≡ false) }
{
    let Ok(names) = names_before(alloc, path) else {
        drop(excerpt);
        return Err(Memory);
    };
    let grown = with_path(alloc, excerpt, names.as_slice(), MOST_NAMES);
    drop(names);
    grown
}

/// The names of a path before its first step to any element, as steps.
fn names_before(alloc: Global, path: &Path) -> Result<Vec<QueryStep>, Memory>
    ensures { IfOk result (λ names. names.items ≡ names_of path.now) }
{
    let mut names = Vec::new(alloc);
    for step in path.as_slice() {
        match step {
            Step::Name(name) => names.push(QueryStep::Member(name.copy(alloc)?))?,
            Step::Item => return Ok(names),
        }
    }
    Ok(names)
}
