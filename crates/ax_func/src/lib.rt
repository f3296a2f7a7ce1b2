//! What the operators and functions of queries give: each call answers exactly the value that the
//! definitions of `ax_mean` name, and fails only out of memory.
//!
//! Stands on `ax_mean`. Its one contract: `binary`, `unary`, `call` and `compare` are their
//! definitions, and so are `binary_seen`, `unary_seen` and `call_seen`, whose operands may stand in
//! a document and are not copied.
#![tactic(auto)]

mod arguments;
mod arithmetic;
mod calls;
mod chars;
mod comparison;
mod like;
mod lists;
pub mod logic;
mod operators;
mod order;
mod out_of_memory;
mod owned;
mod same;
mod seen;
mod texts;
mod values;

pub use calls::call_seen;
pub use comparison::{equality, scalar_order};
pub use operators::{binary_seen, unary_seen};
pub use order::compare;
pub use out_of_memory::Memory;
pub use owned::{binary, call, unary};
pub use seen::{Held, Seen};
pub use values::{of_truth, truth_of};
