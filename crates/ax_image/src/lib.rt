//! What an image of a store stands for: it is in the grammar of all versions, whole, and its documents are
//! those of a container, each under the policy by which it is indexed there; and the policy now is the
//! container's. Definitions and laws; no program.
//!
//! Stands on `ax_image_grammar` for that grammar, and on `ax_container`. Its one contract: an image stands for
//! one container at most, that of a fresh store for the fresh one, and the changes of a creation, a replacement and a deletion
//! lead from what holds a container to what holds the one after it. All that such an image tells can be read,
//! what was superseded too.
#![tactic(auto)]

pub mod laws;
