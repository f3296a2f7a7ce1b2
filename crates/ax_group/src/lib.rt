//! The answer of a query with GROUP BY or aggregates: rows with equal values of the expressions behind
//! GROUP BY are one group, which shows one row. Of a group its values are kept, a tally for each
//! aggregate, and of its first row the values that it shows: no document.
//!
//! Stands on `ax_eval`, which gives the value of an expression. Its one contract: what `Groups` gives
//! for rows that were added one after another are the rows of their groups by the definition; it fails
//! only out of memory, and a row that could not be added changes nothing.
#![tactic(auto)]

mod arguments;
mod asked;
mod exact_sum;
mod filled;
mod groups;
mod key;
mod needed;
mod out_of_memory;
mod part;
mod results;
mod scalar;
mod shown;
mod state;
mod tally;

pub use groups::Groups;
pub use out_of_memory::Memory;
