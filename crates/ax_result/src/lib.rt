//! What a query answers over documents, with groups or without: definitions that `ax_group` and
//! `ax_answer`, which compute it, and `ax_machine`, which says what a line's reply is, cite in common,
//! and laws about them.
//!
//! Stands on `ax_mean`, which has the rows of a document and the plain answer. Its contracts are its
//! laws.
#![tactic(auto)]

pub mod laws;
