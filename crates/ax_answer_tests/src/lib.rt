//! Tests of the answers of queries over documents that come one by one: where a walk stops, what is
//! kept, and what groups show; and of the rows of one document by themselves. They show what no contract
//! says: that a walk ends where nothing more is wanted, and that memory suffices.
//!
//! Stands on `ax_answer`, on `ax_rows` below it, on `ax_parse`, which reads the queries, and on
//! `ax_text`, which reads the documents. It has no contract: it is code of tests alone.
#![tactic(auto)]

#[cfg(test)]
mod tests;
