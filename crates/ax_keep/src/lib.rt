//! The changes by which the index follows a document: the pairs that it had are taken out, those that
//! it has now are put in, and what it had and has is not touched.
//!
//! Stands on `ax_terms`, whose terms these are, on `ax_policy`, under whose policies a document has
//! them, and on `ax_delta`, whose changes are made. Its one contract: `changes` exchanges the pairs of
//! a document for those of another, or of none (`specs/Exchanges.antt`, `specs/Owned.antt`);
//! `changes_under` does so where both are under one policy, and makes no terms of the parts that are
//! equal in both; `exchanged` does so with any pairs that rise.
#![tactic(auto)]

mod differing;
mod exchange;
mod netting;
mod owned;

pub use ax_delta::Change;
pub use ax_mean::Memory;
pub use exchange::{changes, changes_under, exchanged};
