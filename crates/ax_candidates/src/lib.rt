//! The candidates of a query's plan: the numbers of the documents that have a term in each of its unions of
//! ranges, over the index of a store.
//!
//! Stands on `ax_index`, which finds the numbers with a term in one of several ranges, and on `ax_gap`, which meets
//! two rising lists. Its one contract: where term pages hold a set (`IsIndex`), `candidates` answers just the numbers
//! that have a pair of it in every union (`AreCandidates`), and of an index that is spoiled, a disk that fails and the
//! store it tells what `pairs_in_some` does.
#![tactic(auto)]

mod finding;
mod meeting;
mod points;

pub use ax_index::{StoreFault, TermRange};
pub use finding::candidates;
