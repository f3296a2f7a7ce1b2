//! The change of the indexing policy of a store on which lines go on, and the steps by which its documents are put under it.
//!
//! Stands on `ax_store` for batches, on `ax_policy` for policies and the numbers that they are given, on `ax_table`, whose
//! table of policies is kept, and on `ax_write` for the parts and the changes of the index that a document makes, and for their
//! commit. What a store stands for with its index is said by `ax_image_pairs`.
//!
//! Its contract: over an honest disk and a store that holds a container with its index, `set_policy` makes of it what the
//! container says of another policy, or is refused as the container says, or changes nothing; `step` puts the first documents
//! that are under another policy under the one now, with their index, or changes nothing; `merge` writes term pages anew and
//! changes neither documents nor pairs; where the disk fails, and where a crash comes at any moment, the store is left as
//! before or behind it.
#![tactic(auto)]

mod batches;
mod commit;
mod counting;
mod fault;
mod gather;
mod merging;
mod moves;
mod next;
mod ordering;
mod setting;
mod stepping;

pub use fault::TransformFault;
pub use merging::merge;
pub use setting::set_policy;
pub use stepping::step;
