//! What the term pages of a store hold: the pairs of each page, and the set of pairs of them all.
//!
//! Stands on `ax_pages`, which has the pages as payloads, and on `ax_leaf` and `ax_delta`, whose
//! grammars say what a payload is. It has definitions and laws, and no code that a program runs: the
//! index cites them, and so may whatever says what a disk image stands for, which does not stand on
//! the store.
#![tactic(auto)]

pub mod laws;
