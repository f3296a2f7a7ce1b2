ghost use Rattle.std.specs.Prelude.{◌≡◌};
ghost use Rattle.ax_mean.specs.RowOrder.{first_value, later_values};

use ax_mean::Value;
use std::marker::Model;
use std::vec::IntoIter;

/// The values of aggregates, which are taken one after another.
#[derive(Drop)]
pub struct Results {
    left: IntoIter<Value>,
}

impl Model for Results {
    ghost use Rattle.std.specs.Prelude.{List};
    ghost use Rattle.std.specs.Coded.{coded_list};
    ghost use Rattle.std.specs.Vec.Iter.{into_iter_items};
    ghost use Rattle.ax_mean.specs.contracts.value.Value as value;
    ghost use Rattle.ax_mean.specs.declared.value.Value as values;

    ghost Value = { List values.Value };

    ghost coded = { coded_list value.the_row.coded };

    ghost view = { λ results. into_iter_items results.left };
}

impl Results {
    pub fn new(values: Vec<Value>) -> Results
        ensures { result ≡ values.items }
    {
        Results {
            left: values.into_iter(),
        }
    }

    /// The first value that is left; undefined where none is.
    pub fn take(&mut self) -> Value
        ensures first { result ≡ first_value self.old }
        ensures rest { self.new ≡ later_values self.old }
    {
        match self.left.next() {
            Some(value) => value,
            None => Value::Undefined,
        }
    }
}
