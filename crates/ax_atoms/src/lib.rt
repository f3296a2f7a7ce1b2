//! Which conditions of a query an index answers: WHERE is taken apart at its outermost ANDs, and each
//! condition that is recognised gets the ranges of terms one of which each document has of which it is
//! true.
//!
//! Stands on `ax_mean`, whose queries it reads, on `ax_term`, whose terms the ranges have, and on
//! `ax_terms`, which says what terms a document has. Its one contract: `conjuncts` gives exactly the
//! conjuncts of the definition (`specs/Conjuncts.antt`), and the laws say what these are worth: a condition
//! is true where all its operands are, their ranges have exactly the terms that they ask for
//! (`specs/Wanted.antt`), and a document of which a recognised condition is true has a term in its ranges.
#![tactic(auto)]

mod conjunct;
mod constant;
pub mod laws;
mod next;
mod of_query;
mod path;
mod ranges;
mod recognise;

pub use ax_mean::{Memory, Query};
pub use conjunct::{Conjunct, PathList, RangeList};
pub use of_query::conjuncts;
