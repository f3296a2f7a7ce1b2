//! Rows in their order.
ghost use Rattle.std.specs.Prelude.{◌≡◌, [], map, IfOk, OnOk};
ghost use Rattle.ax_mean.specs.Answer.{sorted as in_order};
ghost use Rattle.ax_mean.specs.RowOrder.{key_cmp};
ghost use Rattle.ax_rows.specs.SortKeys.{ranked as ranked_row, ranked_cmp, rises};

use crate::out_of_memory::Memory;
use crate::ranked::Ranked;
use crate::sort_key::Directed;
use ax_mean::{KeyedRow, OrderList};
use std::alloc::Global;
use std::cmp::Ordering;

/// The rows by their order values, then by number and place; rows that tie stay as they stand. Rows
/// that come in order, as they do without ORDER BY, cost one look.
pub fn sorted(
    alloc: Global,
    orders: &OrderList,
    rows: Vec<KeyedRow>,
) -> Result<Vec<KeyedRow>, Memory>
    ensures { IfOk result (λ sorted. sorted.items ≡ in_order (key_cmp orders.now) rows.items) }
{
    if orders.as_slice().is_empty() && rise(rows.as_slice()) {
        return Ok(rows);
    }
    let mut ranked = all_ranked(alloc, orders, rows)?;
    sort_ranked(&mut ranked)?;
    Ok(rows_of(alloc, ranked)?)
}

/// Whether number and place rise along the rows.
fn rise(rows: &[KeyedRow]) -> bool
    ensures { result ≡ rises (key_cmp []) rows.now }
{
    let Some((first, rest)) = rows.split_first() else {
        return true;
    };
    let mut before = first;
    for row in rest {
        if key_order(row, before).is_lt() {
            return false;
        }
        before = row;
    }
    true
}

/// How two rows without order values stand.
fn key_order(a: &KeyedRow, b: &KeyedRow) -> Ordering
    ensures { result ≡ key_cmp [] a.now b.now }
{
    match a.number.cmp(&b.number) {
        Ordering::Equal => a.place.as_slice().cmp(b.place.as_slice()),
        order => order,
    }
}

/// The rows with their keys.
fn all_ranked(alloc: Global, orders: &OrderList, rows: Vec<KeyedRow>) -> Result<Vec<Ranked>, Memory>
    ensures { IfOk result (λ ranked. ranked.items ≡ map (ranked_row orders.now) rows.items) }
{
    let mut ranked = Vec::with_capacity(alloc, rows.len())?;
    for row in rows {
        ranked.push(Ranked::new(alloc, orders, row)?)?;
    }
    Ok(ranked)
}

pub fn sort_ranked(ranked: &mut Vec<Ranked>) -> Result<(), Memory>
    ensures { OnOk result
        (ranked.new.items ≡ in_order (ranked_cmp ⟦<Directed as Ord>⟧.cmp) ranked.old.items) }
{
    ranked.sort_by(|a, b| a.compare(b))?;
    Ok(())
}

/// The rows without their keys.
pub fn rows_of(alloc: Global, ranked: Vec<Ranked>) -> Result<Vec<KeyedRow>, Memory>
    ensures { IfOk result (λ rows. rows.items ≡ map (λ r. r.row) ranked.items) }
{
    let mut rows = Vec::with_capacity(alloc, ranked.len())?;
    for ranked in ranked {
        rows.push(ranked.into_row())?;
    }
    Ok(rows)
}
