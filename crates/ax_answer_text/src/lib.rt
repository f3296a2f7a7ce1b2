//! What a query answers from the texts of documents, which are read only as far as the query looks at
//! them.
//!
//! Stands on `ax_answer`, which answers from trees, on `ax_sieve`, which tells of a text that its
//! document adds no row, on `ax_excerpt` and `ax_excerpt_text`, which read the part of a text that the
//! query looks at, on `ax_storable`, which reads a text whole and knows which are those of documents, and on
//! `ax_skim`, which tells where a text begins as that of a map. Its one contract: what a `TextAnswer`
//! gives for the canonical texts of documents that were added one by one is the answer of the query over
//! these documents, one step each; and bytes that it reads whole are never taken for a document that they
//! are not the text of.
#![tactic(auto)]

mod text_answer;
mod text_fault;

pub use text_answer::TextAnswer;
pub use text_fault::{Memory, TextFault};
