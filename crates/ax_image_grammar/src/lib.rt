//! When an image of a store is in the grammar, whole: what opening sees, the payload of everything that was told,
//! superseded or not, and the policies in use; and what container it then stands for. Definitions and laws; no program.
//!
//! It stands on `ax_area`, which says what an image tells and to what contents that leads; and, for what payloads
//! hold, on `ax_storable` (the limits of documents), `ax_policy`, `ax_leaf` and `ax_delta`, and on
//! `ax_pairs` for the index. `ax_image` cites the grammar from here, and so `run` does.
//!
//! Its one contract: an image in the grammar is outside it nowhere, all that it holds can be read, a commit of changes
//! that may be committed keeps it there, and it stands for one container at most. Of what is outside it, that which opening
//! does not see and which counts is met later, each thing at a place of its own.
#![tactic(auto)]

pub mod laws;
