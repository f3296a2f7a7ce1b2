//! The reader of JSON texts: from bytes to a tree, with the two ways in which bytes are none.
//!
//! Stands on `serde_json`, which reads the value, and on `ax_tree`, whose trees it gives. Its one
//! contract: `read_tree` answers exactly what the bytes are as a JSON text.
#![tactic(auto)]

mod direct;
pub mod laws;
mod read;
mod text_fault;
mod tree_nesting;

pub use read::{TreeReader, read_tree};
pub use text_fault::TextFault;
pub use tree_nesting::nesting;
