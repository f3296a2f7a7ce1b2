//! Tests of the collector of excerpts: from the text of a query to the part of a document that it
//! looks at. They show what no contract says: that memory suffices, and that an excerpt has next to
//! nothing that the query does not look at.
//!
//! Stands on `ax_excerpt`, and on `ax_parse`, which reads the queries. It has no contract: it is code
//! of tests alone.
#![tactic(auto)]

#[cfg(test)]
mod tests;
