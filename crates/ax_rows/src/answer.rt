ghost use Rattle.std.specs.Prelude.{◌≡◌, drop, IfOk};
ghost use Rattle.ax_mean.specs.Answer.{distinct_where, finish as finished, limited, ordered as in_order};

use crate::aggregates::has_groups;
use crate::out_of_memory::Memory;
use crate::sort::sorted;
use crate::unseen::distinct;
use ax_mean::{KeyedRow, Query};
use std::alloc::Global;

/// What a query answers from all its rows: sorted by their keys, of rows that show the same text the
/// first where DISTINCT is written, less those that OFFSET leaves out, and at most as many as LIMIT.
/// The rows of a query with groups stay in the order in which they are given.
pub fn finish(alloc: Global, query: &Query, rows: Vec<KeyedRow>) -> Result<Vec<KeyedRow>, Memory>
    ensures { IfOk result (λ answer. answer.items ≡ finished query.now rows.items) }
{
    let rows = ordered(alloc, query, rows)?;
    let rows = told_apart(alloc, query.distinct, rows)?;
    Ok(chosen(rows, query.skip, query.limit))
}

/// The rows that OFFSET and LIMIT choose.
pub fn chosen(rows: Vec<KeyedRow>, skip: u32, limit: Option<u32>) -> Vec<KeyedRow>
    ensures { result.items ≡ limited limit (drop skip rows.items) }
{
    let mut rows = rows;
    leave_out(&mut rows, skip);
    cut(&mut rows, limit);
    rows
}

fn ordered(alloc: Global, query: &Query, rows: Vec<KeyedRow>) -> Result<Vec<KeyedRow>, Memory>
    ensures { IfOk result (λ sorted. sorted.items ≡ in_order query.now rows.items) }
{
    if has_groups(query) {
        return Ok(rows);
    }
    sorted(alloc, &query.orders, rows)
}

fn told_apart(
    alloc: Global,
    is_distinct: bool,
    rows: Vec<KeyedRow>,
) -> Result<Vec<KeyedRow>, Memory>
    ensures { IfOk result (λ kept. kept.items ≡ distinct_where is_distinct rows.items) }
{
    if is_distinct {
        distinct(alloc, rows)
    } else {
        Ok(rows)
    }
}

/// Leaves out the first rows.
fn leave_out(rows: &mut Vec<KeyedRow>, skip: u32)
    ensures { rows.new.items ≡ drop skip rows.old.items }
{
    let count = rows.len().min(skip as usize);
    rows.drain(..count);
}

/// Keeps at most as many rows as the limit.
pub fn cut(rows: &mut Vec<KeyedRow>, limit: Option<u32>)
    ensures { rows.new.items ≡ limited limit rows.old.items }
{
    if let Some(limit) = limit {
        rows.truncate(limit as usize);
    }
}
