//! The payload of a base of a term page: its low pair, and its pairs, with the terms shortened by
//! what each has in common with the term before. The crate stands on `ax_gap`, whose gap lists hold
//! the numbers of each term, on `ax_pair`, which has pairs and low pairs, and on `ax_pair_list`, whose
//! borrowed pairs it writes.
//!
//! Its one contract: rising pairs under a low pair have one payload, `IsLeaf` of
//! `specs/Payload.antt`. `encode` writes it. `check` reads it, and answers `None` exactly where the
//! bytes are no payload; what it gives finds the numbers of a term, and has a cursor that gives the
//! pairs, in order.
#![tactic(auto)]

mod checking;
mod cursor;
mod finding;
pub mod front;
pub mod laws;
mod leaf;
pub mod listing;
pub mod matching;
mod out_of_memory;
mod remaining;
mod short_posting;
pub mod short_term;
mod writing;

pub use cursor::PairCursor;
pub use leaf::{Leaf, check};
pub use out_of_memory::Memory;
pub use writing::{encode, is_in_order};
