//! The rows of a query: which ones the sources of a query make of a document, and what is answered
//! from the rows of all documents. Of a document nothing is copied but what a row shows and what it
//! is ordered by, and that only of rows that pass WHERE.
//!
//! Stands on `ax_eval`, which gives the value of an expression. Its one contract: `rows_of` gives the
//! keyed rows of a document by their definition, `envs_of` the environments of those that pass, and
//! `finish` the answer; they fail only out of memory.
#![tactic(auto)]

mod aggregates;
mod answer;
mod flow;
mod front;
mod key_bytes;
mod keyed;
pub mod laws;
mod least;
mod out_of_memory;
mod parts;
mod passed;
mod ranked;
mod rows;
mod shown;
mod sort;
mod sort_key;
mod unseen;
mod walk;

pub use aggregates::has_groups;
pub use answer::finish;
pub use flow::Flow;
pub use front::FrontRows;
pub use least::LeastRows;
pub use out_of_memory::Memory;
pub use rows::{append_rows, envs_of, rows_of};
pub use shown::passes_in;
pub use walk::{Taker, walk_tree};
