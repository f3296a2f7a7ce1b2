//! The documents of an open store with its index: opening, the writes of documents, and reading one.
//!
//! Stands on `ax_write`, whose writes keep the index, on `ax_table`, which makes the table of policies at opening, and on
//! `ax_recent`, which remembers ids that were lately found. Its one contract: what was opened holds the container that
//! the store stands for with its index, and each call leaves the container that the call makes of it, or the same; a
//! crash at any moment leaves the one or the other. Damage that a write or a look-up tells stands at its place in the
//! image that reads give: the text of a document, or a part of a term page, outside its grammar.
#![tactic(auto)]

mod documents;
mod opening;
mod writing;

pub use ax_write::WriteFault;
pub use documents::Documents;
pub use opening::open_documents;
