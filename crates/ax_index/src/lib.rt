//! The index: a set of pairs of a term and a document's number, over the term pages of a store.
//!
//! Stands on `ax_store` for the pages and their parts, on `ax_leaf` and `ax_delta` for what the parts
//! say, on `ax_pair_list` for the pairs of a page, on `ax_term` for ranges of terms, and on `ax_pairs`
//! for what the set is. Its one contract: where term pages hold a set (`IsIndex`), `has`, `pairs_in`,
//! `pairs_in_some` and `number_of` answer what is in it, the parts of `plan_changes` make exactly the
//! changes that were asked for, and those of `merge_some` change no pair.
#![tactic(auto)]

mod base_numbers;
mod bases;
mod by_id;
mod choice;
mod damage;
mod folding;
mod looking;
mod merging;
mod number_lookup;
mod numbers;
mod out_of_memory;
mod parts;
mod payload;
mod plan;
mod ranges;
mod runs;
mod sizes;
mod wanted;

pub use ax_delta::Change;
pub use ax_pair::Pair;
pub use ax_store::StoreFault;
pub use ax_term::TermRange;
pub use by_id::number_of;
pub use looking::has;
pub use merging::merge_some;
pub use numbers::{pairs_in, pairs_in_some};
pub use plan::plan_changes;
pub use sizes::have_short_terms;
