//! The documents that a store can hold, and the texts by which it holds them.
//!
//! Stands on `ax_tree` and `ax_text` for trees and their texts, and on `ax_terms`, which counts the terms of
//! a document. Its one contract: a tree is `storable`, or is told to break the first limit that it breaks,
//! out of memory aside; and `read_document` reads exactly the texts of documents that can be stored.
#![tactic(auto)]

mod document;
mod limits;
mod short_names;

pub use document::{DocumentFault, read_document};
pub use limits::{Unstorable, is_too_deep, storable};
