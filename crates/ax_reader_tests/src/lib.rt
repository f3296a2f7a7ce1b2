//! Tests of the reader of excerpts: random documents beside what is left of them, large ones, and
//! texts by hand. They show what no contract says: that memory suffices, and how a text that is no
//! canonical one is answered.
//!
//! Stands on `ax_excerpt_text` and `ax_excerpt`, on `ax_parse`, which reads a query, and on `ax_tree`,
//! which writes what was read. It has no contract: it is code of tests alone.
#![tactic(auto)]

#[cfg(test)]
mod tests;
