//! The reader of excerpts: of the canonical text of a document it reads what an excerpt leaves, and
//! passes over all else. It stops behind the last name that the excerpt has.
//!
//! Stands on `ax_excerpt`, which says what an excerpt leaves of a tree, on `ax_skim`, which finds
//! members and scalars in a text, and on `ax_text`, which reads lists, maps and texts with escapes. Its
//! one contract: of the canonical text of a tree that reads back, `read_excerpt` answers exactly what
//! the excerpt leaves of the tree, or that memory ran out; of other bytes that it reads whole, what
//! they stand for.
#![tactic(auto)]

mod comparing;
mod looking;
mod read;
mod whole;

pub use read::read_excerpt;
