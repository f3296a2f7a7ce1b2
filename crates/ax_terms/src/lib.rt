//! The terms of a document: those by which an index finds it under an indexing policy, and how many
//! it would have with all its leaves covered.
//!
//! Stands on `ax_term`, whose terms these are, and on `ax_policy`, which says what is covered. Its
//! one contract: `terms_of` gives exactly the terms of the definition (`specs/TermsOf.antt`),
//! `differing_terms` those by which two documents differ (`specs/Differing.antt`), and `count_all` the
//! exact number and size of all (`specs/Counts.antt`). Of `ax_func` it takes the comparison of trees.
#![tactic(auto)]

mod composites;
mod count;
mod counter;
mod differing;
mod in_order;
pub mod laws;
mod numbered;
mod plain;
mod term_count;
mod term_value;
mod terms;

pub use ax_mean::Memory;
pub use ax_term::Bytes;
pub use count::count_all;
pub use differing::differing_terms;
pub use term_count::TermCount;
pub use terms::terms_of;
