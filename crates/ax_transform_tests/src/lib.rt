//! Tests of changes of the policy on a disk in memory. They show what no contract says: that memory suffices, which bytes are
//! written, and what is there when the store is opened again.
//!
//! Stands on `ax_transform`, on `ax_write` for documents, and on what these stand on. It has no contract: it is code of tests
//! alone.
#![tactic(auto)]

#[cfg(test)]
mod tests;
