//! Terms, by which an index finds documents: the id of a document, the value at a path, or the
//! values at several paths. In contracts a term is a tuple; in code it is bytes.
//!
//! Stands on `ax_mean`, whose paths and order of values terms follow. Its one contract: `term`,
//! `composite_term` and `id_term` give the bytes of a term (`specs/TermBytes.antt`), and the laws
//! say that the order of these bytes is the order of terms (`specs/TermOrder.antt`) and that terms
//! of equal bytes are equal. docs/FORMAT.md has the format byte by byte.
#![tactic(auto)]

pub mod laws;
mod pieces;
mod range;
mod room;
mod term_value;
mod terms;

pub use ax_mean::{Memory, Order, Path, Step};
pub use pieces::{append_name, append_step, append_value};
pub use range::TermRange;
pub use term_value::{Bytes, TermValue};
pub use terms::{Composite, composite_term, id_term, term};
