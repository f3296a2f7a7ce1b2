//! Tests of the query language that cross crates: tables of operators and functions with what they
//! give, of texts that are queries or none, and of documents that a query drops. They show what no
//! contract says: that a call succeeds where memory is there, and that the definitions mean what is
//! meant.
//!
//! Stands on `ax_eval`, `ax_parse` and `ax_sieve` and what these stand on, and on `ax_text`, which
//! reads the tables. It has no contract: it is code of tests alone.
#![tactic(auto)]

#[cfg(test)]
mod tests;
