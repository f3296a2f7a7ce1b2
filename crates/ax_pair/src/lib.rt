//! Pairs of a term and the number of a document that has it: their order, and the low pair with which
//! the payload of a base begins. Stands on `ax_gap`, whose varints they are written with, and on
//! `ax_tree`, whose lists of bytes the terms are.
//!
//! Its one contract: `split_low` reads the low pair with which bytes begin, `low_in` of
//! `specs/Low.antt`, and answers `None` exactly where they begin with none.
#![tactic(auto)]

pub mod laws;
mod low;
mod number;
mod pair;

pub use low::split_low;
pub use number::split_number;
pub use pair::{Bytes, Pair, comes_before};
