//! Which parts of a document a query looks at, and what is left of a document by them.
//!
//! Stands on `ax_mean` and `ax_result`, which say what the rows of a document and the answer of a query
//! are. Its contract: where an excerpt is enough for a query, the query has the same rows and the same
//! answer over what the excerpt leaves of documents as over the documents themselves; `excerpt_for` gives
//! one that is enough and leaves less than all, and `None` exactly where there is none, out of memory
//! aside.
#![tactic(auto)]

mod collecting;
mod excerpt;
mod growing;
mod keeping;
pub mod laws;
mod paths;
mod plain;
mod shown;
mod source;

pub use collecting::{excerpt_for, excerpt_for_keys};
pub use excerpt::Excerpt;
pub use plain::has_plain_names;
pub use shown::shows_document;
