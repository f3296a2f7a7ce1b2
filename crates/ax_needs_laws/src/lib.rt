//! That a plan of a query finds just the documents that the query needs. Definitions and laws; no program.
//!
//! Stands on `ax_needs`, which says of a query and a container what the query needs, on `ax_skips` and `ax_candidates`,
//! which say what the candidates of a plan are by the pairs that an index holds, and on `ax_table`, which says when a
//! table of policies agrees with a store. Its one contract: over an index of exactly the pairs of all documents, with a
//! table that has just their policies in use, a plan has as many candidates as the query needs documents, and where it
//! has no union the query needs all; and a table that agrees with the contents of a store is such a table.
#![tactic(auto)]

pub mod laws;
