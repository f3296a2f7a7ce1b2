//! Pairs whose terms stand in one buffer, one after another, once where neighbours have the same. So a
//! list of them takes memory as it grows, with no allocation for each pair. Stands on `ax_pair`, whose
//! pairs they are, and on `ax_tree`, whose lists of bytes the terms of pairs are.
//!
//! Its one contract: a `PairList` is seen as the list of its pairs. `push` puts one at its end,
//! `pair` reads one, and `refs` gives them all as a vector of `PairRef`, each of which is seen as its pair.
#![tactic(auto)]

mod out_of_memory;
mod pair_list;
mod pair_ref;

pub use out_of_memory::Memory;
pub use pair_list::PairList;
pub use pair_ref::{PairRef, refs_of};

#[cfg(test)]
mod tests;
