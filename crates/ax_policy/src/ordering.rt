//! For which orders a policy keeps an index.
ghost use Rattle.std.specs.Prelude.{◌≡◌, ◌↔◌, IsTrue, slice_get};
ghost use Rattle.std.specs.List.{list_any};
ghost use Rattle.std.specs.Option.{option_copied};
ghost use Rattle.ax_policy.specs.Ordering.{Orderable, offered as offered_by};
ghost use Rattle.ax_policy.specs.Sameness as spec;

use crate::overlap::same_path;
use crate::policy::{Composite, Policy};
use ax_mean::{Order, OrderList};

impl Policy {
    /// Whether ORDER BY these paths goes by the index: there are none; or one, which is covered; or
    /// two and more, and the policy offers a composite with the same paths in sequence and all
    /// directions equal, or all opposite.
    pub fn orderable(&self, orders: &OrderList) -> bool
        ensures { IsTrue result ↔ Orderable self.now orders.now }
    {
        self.is_orderable(orders.as_slice())
    }

    /// The composite at that position in the policy's normal text; `None` where the policy
    /// offers none there, as under mode `none` or where `automatic` is false.
    pub fn composite(&self, at: u8) -> Option<&Composite>
        ensures { option_copied result ≡ slice_get (offered_by self.now) at }
    {
        self.offered().get(usize::from(at))
    }

    fn is_orderable(&self, orders: &[Order]) -> bool
        ensures { result ≡ spec.is_orderable self.now orders.now }
    {
        match orders {
            [] => true,
            [order] => self.is_covered(&order.path),
            orders => any_fits(self.offered(), orders),
        }
    }

    /// The composites that the policy offers.
    fn offered(&self) -> &[Composite]
        ensures { result.now ≡ offered_by self.now }
    {
        if self.indexes() {
            self.composites.as_slice()
        } else {
            &[]
        }
    }
}

fn any_fits(composites: &[Composite], orders: &[Order]) -> bool
    ensures { result ≡ list_any (λ composite. spec.fits composite orders.now) composites.now }
{
    for composite in composites {
        if fits(composite.as_slice(), orders) {
            return true;
        }
    }
    false
}

fn fits(composite: &[Order], orders: &[Order]) -> bool
    ensures { result ≡ spec.fits composite.now orders.now }
{
    same_paths(composite, orders)
        && (same_ways(composite, orders, false) || same_ways(composite, orders, true))
}

fn same_paths(composite: &[Order], orders: &[Order]) -> bool
    ensures { result ≡ spec.same_paths composite.now orders.now }
{
    let Some((part, parts)) = composite.split_first() else {
        return orders.is_empty();
    };
    let Some((order, orders)) = orders.split_first() else {
        return false;
    };
    same_path(part.path.as_slice(), order.path.as_slice()) && same_paths(parts, orders)
}

/// Whether the directions are equal, or, for `opposite`, each is opposite.
fn same_ways(composite: &[Order], orders: &[Order], opposite: bool) -> bool
    ensures { result ≡ spec.same_ways opposite composite.now orders.now }
{
    let Some((part, parts)) = composite.split_first() else {
        return orders.is_empty();
    };
    let Some((order, orders)) = orders.split_first() else {
        return false;
    };
    is_way(part.down, order.down, opposite) && same_ways(parts, orders, opposite)
}

fn is_way(down: bool, wanted: bool, opposite: bool) -> bool
    ensures { result ≡ spec.same_truth (spec.turned opposite down) wanted }
{
    if opposite {
        down != wanted
    } else {
        down == wanted
    }
}
