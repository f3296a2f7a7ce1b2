//! Which documents a query needs, as definitions that compute: of a query and a container the candidates, those of its
//! documents that have a term in each union of ranges of the usable conditions, and how many they are. Definitions and
//! laws; no program.
//!
//! Stands on `ax_atoms`, which finds the conditions that an index answers and their ranges of terms, on `ax_policy` and
//! `ax_terms`, which say what is covered and which terms a document has, and on `ax_container`. Its one contract: each
//! test is tied, both ways, to the relation that it decides.
#![tactic(auto)]

pub mod laws;
