//! That the answer of a query over a few candidate documents is its answer over all documents. Definitions and laws; no
//! program.
//!
//! Stands on `ax_plan`, which says in which unions of ranges a document with rows has its terms, on `ax_image_pairs` and
//! `ax_index`, which say what pairs an index holds, on `ax_table`, which says which policies are in use, and on
//! `ax_answer_text`, which takes documents in one by one. Its one contract: documents that have no rows may be left out,
//! before an answer takes them in and after; one whose number has no term in some union of a plan has none; and so the
//! answer over all documents is that over the documents of a list that has all candidates, fetched number by number.
#![tactic(auto)]

pub mod laws;
