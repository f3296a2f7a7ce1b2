//! The query that is made of what is written: what is written moves into it, and only a name that
//! stands twice is copied.
ghost use Rattle.std.specs.Prelude.{◌≡◌, ◌∷◌, IfOk, map};
ghost use Rattle.ax_mean.specs.declared.query.Step.{Step};
ghost use Rattle.ax_grammar.specs.Made.{made as query_of, pick_made as pick_of, source_made as first_from, join_made as joined_from, order_made as order_of, skip_made as skip_of, limit_made as limit_of};
ghost use Rattle.ax_grammar.specs.Names.{default_alias as alias_by_default, own_name as name_of_expr, written_or, named_items as items_named};
ghost use Rattle.ax_grammar.specs.Scope.{or_container};
ghost use Rattle.ax_scope.specs.AsWritten.{item_of, picked_of, source_of, joined_of, ordered_of, optional_window, written_of};

use crate::names::{default_alias, numbered_name, own_name};
use crate::written::{
    Item, ItemList, Joined, JoinedList, NameList, Ordered, OrderedList, Picked, Source, Window,
    Written,
};
use ax_mean::{
    Expr, FromItem, FromList, Items, Memory, Named, NamedList, Order, OrderList, Path, Pick, Query,
    Step, StepList, Text,
};
use std::alloc::Global;

/// The query that is made of what is written.
pub fn made(alloc: Global, written: Written) -> Result<Query, Memory>
    ensures { IfOk result (λ query. query ≡ query_of (written_of written)) }
{
    let Written {
        distinct,
        top,
        picked,
        source,
        joins,
        condition,
        groups,
        orders,
        window,
    } = written;
    let Ok(parts) = parts_made(alloc, picked, source, joins, orders) else {
        drop(condition);
        drop(groups);
        return Err(Memory);
    };
    let Parts {
        pick,
        froms,
        orders,
    } = parts;
    Ok(Query {
        distinct,
        pick,
        froms,
        condition,
        groups,
        orders,
        skip: skip_made(window),
        limit: limit_made(top, window),
    })
}

/// What a query has that is not written as it stands.
#[derive(Debug, Drop)]
struct Parts {
    pick: Pick,
    froms: FromList,
    orders: OrderList,
}

fn parts_made(
    alloc: Global,
    picked: Picked,
    source: Source,
    joins: JoinedList,
    orders: OrderedList,
) -> Result<Parts, Memory>
    ensures pick { IfOk result (λ parts. parts.pick ≡ pick_of (picked_of picked)) }
    ensures froms { IfOk result (λ parts. parts.froms
        ≡ first_from (source_of source) ∷ map joined_from (map joined_of joins)) }
    ensures orders { IfOk result (λ parts. parts.orders ≡ map order_of (map ordered_of orders)) }
{
    let Ok(pick) = pick_made(alloc, picked) else {
        drop(source);
        drop(joins);
        drop(orders);
        return Err(Memory);
    };
    let Ok(froms) = froms_made(alloc, source, joins) else {
        drop(pick);
        drop(orders);
        return Err(Memory);
    };
    let Ok(orders) = orders_made(alloc, orders) else {
        drop(pick);
        drop(froms);
        return Err(Memory);
    };
    Ok(Parts {
        pick,
        froms,
        orders,
    })
}

fn pick_made(alloc: Global, picked: Picked) -> Result<Pick, Memory>
    ensures { IfOk result (λ pick. pick ≡ pick_of (picked_of picked)) }
{
    match picked {
        Picked::Star => Ok(Pick::Star),
        Picked::Value(expr) => Ok(Pick::Value(expr)),
        Picked::Items(items) => Ok(Pick::Named(named_items(alloc, items)?)),
    }
}

/// The items with their names, where those without a name are `$1`, `$2` and so on.
fn named_items(alloc: Global, items: ItemList) -> Result<NamedList, Memory>
    ensures { IfOk result (λ named. named ≡ items_named (map item_of items)) }
{
    let count = items.as_slice().len();
    let mut named = Vec::with_capacity(alloc, count)?;
    let mut number: usize = 1;
    for item in items.into_vec() {
        let Item { expr, name } = item;
        match written_or_own(alloc, name, &expr) {
            Ok(Some(name)) => named.push(Named { name, expr })?,
            Ok(None) => {
                let Ok(name) = numbered_name(alloc, number) else {
                    drop(expr);
                    return Err(Memory);
                };
                named.push(Named { name, expr })?;
                number += 1;
            }
            Err(Memory) => {
                drop(expr);
                return Err(Memory);
            }
        }
    }
    Ok(Items::from_vec(named))
}

fn written_or_own(alloc: Global, name: Option<Text>, expr: &Expr) -> Result<Option<Text>, Memory>
    ensures { IfOk result (λ made. made ≡ written_or name (name_of_expr expr.now)) }
{
    match name {
        Some(name) => Ok(Some(name)),
        None => match own_name(expr) {
            Some(name) => Ok(Some(name.copy(alloc)?)),
            None => Ok(None),
        },
    }
}

/// The source after FROM, then those after each JOIN.
fn froms_made(alloc: Global, source: Source, joins: JoinedList) -> Result<FromList, Memory>
    ensures { IfOk result (λ froms. froms
        ≡ first_from (source_of source) ∷ map joined_from (map joined_of joins)) }
{
    let mut froms = Items::new(alloc);
    froms.push(source_made(alloc, source)?)?;
    for joined in joins.into_vec() {
        froms.push(join_made(joined))?;
    }
    Ok(froms)
}

fn source_made(alloc: Global, source: Source) -> Result<FromItem, Memory>
    ensures { IfOk result (λ from. from ≡ first_from (source_of source)) }
{
    let Source {
        container,
        each,
        steps,
        alias,
    } = source;
    Ok(FromItem {
        alias: alias_or_default(alloc, alias, &container, &steps)?,
        base: container,
        steps,
        each,
    })
}

/// The alias that is written, else the one by default, else the container's name.
fn alias_or_default(
    alloc: Global,
    alias: Option<Text>,
    container: &Text,
    steps: &StepList,
) -> Result<Text, Memory>
    ensures { IfOk result (λ made. made
        ≡ or_container container.now
        (written_or alias (alias_by_default container.now steps.now))) }
{
    match alias {
        Some(alias) => Ok(alias),
        None => match default_alias(container, steps.as_slice()) {
            Some(alias) => alias.copy(alloc),
            None => container.copy(alloc),
        },
    }
}

fn join_made(joined: Joined) -> FromItem
    ensures { result ≡ joined_from (joined_of joined) }
{
    let Joined { alias, base, steps } = joined;
    FromItem {
        alias,
        base,
        steps,
        each: true,
    }
}

fn orders_made(alloc: Global, orders: OrderedList) -> Result<OrderList, Memory>
    ensures { IfOk result (λ made. made ≡ map order_of (map ordered_of orders)) }
{
    let mut made = Items::new(alloc);
    for ordered in orders.into_vec() {
        made.push(order_made(alloc, ordered)?)?;
    }
    Ok(made)
}

fn order_made(alloc: Global, ordered: Ordered) -> Result<Order, Memory>
    ensures { IfOk result (λ order. order ≡ order_of (ordered_of ordered)) }
{
    let Ordered {
        alias: _,
        path,
        down,
    } = ordered;
    Ok(Order {
        path: path_made(alloc, path)?,
        down,
    })
}

fn path_made(alloc: Global, names: NameList) -> Result<Path, Memory>
    ensures { IfOk result (λ path. path ≡ map Step.Name names) }
{
    let mut path = Items::new(alloc);
    for name in names.into_vec() {
        path.push(Step::Name(name))?;
    }
    Ok(path)
}

/// The number after OFFSET, else 0.
fn skip_made(window: Option<Window>) -> u32
    ensures { result ≡ skip_of (optional_window window) }
{
    match window {
        None => 0,
        Some(window) => window.offset,
    }
}

/// The number after LIMIT or TOP.
fn limit_made(top: Option<u32>, window: Option<Window>) -> Option<u32>
    ensures { result ≡ limit_of top (optional_window window) }
{
    match window {
        None => top,
        Some(window) => Some(window.limit),
    }
}
