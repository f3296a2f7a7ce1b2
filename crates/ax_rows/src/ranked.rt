ghost use Rattle.std.specs.Prelude.{◌≡◌, Some, IfOk};
ghost use Rattle.std.specs.Option.{option_copied};
ghost use Rattle.ax_mean.specs.RowOrder.{first_value, later_values};
ghost use Rattle.ax_rows.specs.Least.{is_below, place_cmp};
ghost use Rattle.ax_rows.specs.SortKeys.{keys_of as keys_made, ranked, ranked_cmp, value_or_undefined};

use crate::out_of_memory::Memory;
use crate::sort_key::Directed;
use ax_mean::{Items, KeyedRow, OrderList, Value, ValueList};
use std::alloc::Global;
use std::cmp::Ordering;

/// A row with the keys of its order values.
#[derive(Debug, Drop)]
pub struct Ranked {
    pub keys: Items<Directed>,
    pub row: KeyedRow,
}

impl Ranked {
    pub fn new(alloc: Global, orders: &OrderList, row: KeyedRow) -> Result<Ranked, Memory>
        ensures { IfOk result (λ made. made ≡ ranked orders.now row) }
    {
        match keys_of(alloc, orders, &row.values) {
            Ok(keys) => Ok(Ranked { keys, row }),
            Err(fault) => {
                drop(row);
                Err(fault)
            }
        }
    }

    pub fn into_row(self) -> KeyedRow
        ensures { result ≡ self.row }
    {
        let Ranked { keys, row } = self;
        drop(keys);
        row
    }

    /// By the keys, then by number and place.
    pub fn compare(&self, other: &Ranked) -> Ordering
        ensures { result ≡ ranked_cmp ⟦<Directed as Ord>⟧.cmp self.now other.now }
    {
        other.place_of(&self.keys, self.row.number, self.row.place.as_slice())
    }

    /// Whether a row with these keys, number and place comes before this one.
    pub fn follows(&self, keys: &Items<Directed>, number: u32, place: &[u32]) -> bool
        ensures { result ≡ is_below keys.now number place.now (Some self.now) }
    {
        self.place_of(keys, number, place).is_lt()
    }

    /// How a row with these keys, number and place stands to this one.
    fn place_of(&self, keys: &Items<Directed>, number: u32, place: &[u32]) -> Ordering
        ensures { result ≡ place_cmp keys.now number place.now self.now }
    {
        match keys.as_slice().cmp(self.keys.as_slice()) {
            Ordering::Equal => {}
            order => return order,
        }
        match number.cmp(&self.row.number) {
            Ordering::Equal => place.cmp(self.row.place.as_slice()),
            order => order,
        }
    }
}

/// One key for each order.
pub fn keys_of(
    alloc: Global,
    orders: &OrderList,
    values: &ValueList,
) -> Result<Items<Directed>, Memory>
    ensures { IfOk result (λ keys. keys ≡ keys_made orders.now values.now) }
{
    let orders = orders.as_slice();
    let mut keys = Vec::with_capacity(alloc, orders.len())?;
    let mut rest = values.as_slice();
    for order in orders {
        let (value, later) = split(rest);
        keys.push(Directed::new(alloc, order.down, value)?)?;
        rest = later;
    }
    Ok(Items::from_vec(keys))
}

/// The first of the values, where there is one, and those after it.
fn split(values: &[Value]) -> (Option<&Value>, &[Value])
    ensures first { value_or_undefined (option_copied result.0) ≡ first_value values.now }
    ensures later { result.1.now ≡ later_values values.now }
{
    match values.split_first() {
        Some((value, later)) => (Some(value), later),
        None => (None, values),
    }
}
