//! The answer of a query, with groups or without, from documents that are added one by one.
//!
//! Stands on `ax_rows`, which gives the rows of a document, and on `ax_group`, which gathers rows into
//! groups. Its one contract: what `Answer` gives for documents that were added one after another is
//! the answer of the query over them by its definition; it fails only out of memory.
#![tactic(auto)]

mod answer;
mod group_rows;
mod held;
pub mod laws;
mod out_of_memory;

pub use answer::Answer;
pub use out_of_memory::Memory;
