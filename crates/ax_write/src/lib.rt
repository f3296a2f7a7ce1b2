//! The writes of documents, each in one batch with the changes of the index that belong to it.
//!
//! Stands on `ax_store` for documents and their batches, on `ax_index`, which plans the changes of term pages, on
//! `ax_keep` and `ax_policy` for the pairs of a document under its policy, on `ax_table`, whose table of policies the
//! writes keep, on `ax_recent`, which remembers numbers of ids, and on `ax_storable`, which reads a document from its stored
//! text. What changes of the index make of term pages is said by `ax_image_pairs`, and what can be read by
//! `ax_image_grammar`.
//!
//! Its one contract: over an honest disk and a store that holds a container with its index, each write makes of it what the
//! container says, or is refused as the container says, or changes nothing; so does a crash at any moment, and all that
//! is told can be read. `find_number` gives the number of the document of an id, `fetch_held` the document of a
//! number, `pair_changes` the changes of the index that a write makes, and `plan_and_commit` commits them.
#![tactic(auto)]

mod batches;
mod commit;
mod creating;
mod exchanging;
mod fault;
mod finding;
mod held;
mod pairs;
mod writes;

pub use batches::{add_document, add_meta};
pub use commit::plan_and_commit;
pub use fault::WriteFault;
pub use finding::find_number;
pub use held::{HeldDocument, fetch_held};
pub use pairs::pair_changes;
pub use writes::{create, delete, replace, upsert};
