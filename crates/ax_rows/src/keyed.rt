//! The rows of a document that pass WHERE, each with its key.
ghost use Rattle.std.specs.Prelude.{◌≡◌, ◌&&◌, [], IfOk};
ghost use Rattle.ax_mean.specs.Rows.{keyed_where, order_values as order_values_of, passes, shown as is_shown};
ghost use Rattle.ax_mean.specs.Values.{is_defined};
ghost use Rattle.ax_rows.specs.Collected.{Collected, none_collected, both_collected};

use crate::flow::Flow;
use crate::out_of_memory::Memory;
use crate::parts::order_values;
use crate::shown::{passes_in, shown_in, shows_in};
use crate::walk::Taker;
use ax_eval::Scope;
use ax_mean::{Items, KeyedRow, Query, Tree, Value};
use std::alloc::Global;

/// Keeps the rows that pass WHERE and show something, each with its key.
#[derive(Drop)]
pub struct KeyedTaker<'a> {
    pub query: &'a Query,
    pub number: u32,
    pub tree: &'a Tree,
    pub rows: Vec<KeyedRow>,
}

impl<'a> KeyedTaker<'a> {
    pub fn into_rows(self) -> Vec<KeyedRow>
        ensures { result ≡ self.entry.rows }
    {
        let KeyedTaker {
            query: _,
            number: _,
            tree: _,
            rows,
        } = self;
        rows
    }
}

impl<'a> Taker for KeyedTaker<'a> {
    ghost Took = { λ old rows new.
        Collected (keyed_where old.query.now old.number (order_values_of old.query.now old.tree.now))
        old.rows.items rows
        (keyed_where new.query.now new.number (order_values_of new.query.now new.tree.now))
        new.rows.items };

    fn take(&mut self, alloc: Global, scope: &Scope, place: &[u32]) -> Result<Flow, Memory> {
        if let Some(row) = keyed_in(alloc, self.query, self.number, self.tree, scope, place)? {
            self.rows.push(row)?;
        }
        Ok(Flow::More)
    }

    ghost none = { λ taker. none_collected _ _ };

    ghost both = { λ a b c xs ys. both_collected _ _ _ _ _ _ xs ys };
}

/// The row with its key, where it passes WHERE and what it shows is defined.
pub fn keyed_in(
    alloc: Global,
    query: &Query,
    number: u32,
    tree: &Tree,
    scope: &Scope,
    place: &[u32],
) -> Result<Option<KeyedRow>, Memory>
    ensures { IfOk result (λ row. row ≡ keyed_where query.now number
        (order_values_of query.now tree.now) (record { env = scope.now; place = place.now })) }
{
    if !passes_in(alloc, &query.condition, scope)? {
        return Ok(None);
    }
    match shown_in(alloc, &query.pick, scope)? {
        Value::Undefined => Ok(None),
        Value::Defined(shown) => {
            let row = with_key(alloc, query, number, tree, place, shown)?;
            Ok(Some(row))
        }
    }
}

/// Whether the row passes WHERE and what it shows is defined. Nothing is copied.
pub fn has_row(alloc: Global, query: &Query, scope: &Scope) -> Result<bool, Memory>
    ensures { IfOk result (λ found. found ≡ (passes query.now.condition scope.now
        && is_defined (is_shown query.now.pick scope.now))) }
{
    if !passes_in(alloc, &query.condition, scope)? {
        return Ok(false);
    }
    shows_in(alloc, &query.pick, scope)
}

fn with_key(
    alloc: Global,
    query: &Query,
    number: u32,
    tree: &Tree,
    place: &[u32],
    shown: Tree,
) -> Result<KeyedRow, Memory>
    ensures { IfOk result (λ row. row ≡ record {
      values = order_values_of query.now tree.now;
      number = number;
      place = place.now;
      shown = shown;
    }) }
{
    let Ok(values) = order_values(alloc, &query.orders, tree) else {
        drop(shown);
        return Err(Memory);
    };
    let Ok(place) = place.to_vec(alloc) else {
        drop(shown);
        drop(values);
        return Err(Memory);
    };
    Ok(KeyedRow {
        values,
        number,
        place: Items::from_vec(place),
        shown,
    })
}
