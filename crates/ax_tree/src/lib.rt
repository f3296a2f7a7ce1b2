//! JSON trees: what documents are made of, their one canonical text, and what makes a tree a
//! document. Every crate that speaks of documents cites these definitions.
//!
//! Stands on `json`, whose writer puts the texts down, and on the definitions of `serde_json` for
//! what is read back. Its one contract: `append_tree` puts exactly the canonical text of a tree
//! behind what a buffer has, and `Tree::copy` gives an equal tree.
#![tactic(auto)]

mod copy;
mod document;
mod items;
pub mod laws;
mod members;
mod out_of_memory;
#[cfg(test)]
mod tests;
mod text;
mod tree;
mod write;

pub use document::{id_of, may_be_id};
pub use items::Items;
pub use members::{Member, Members};
pub use out_of_memory::Memory;
pub use text::Text;
pub use tree::Tree;
pub use write::{append_tree, write_tree};
