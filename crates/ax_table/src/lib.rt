//! The table of the policies of a store: when one agrees with the store, and how it is read from the store's parts.
//!
//! Stands on `ax_policy`, whose table it is, on `ax_store`, whose parts it reads, and on `ax_image_grammar`, which says
//! what of the contents it needs. Its one contract: `read_table` answers a table that agrees with the store
//! (`TableAgrees`), or where the store has none at which place. That writes keep the agreement is said by the lemmas
//! of `proofs/Agreeing.antt`.
#![tactic(auto)]

mod apart;
mod damage;
mod documents;
mod given;
mod policies;
mod policy_text;
mod reading;

pub use policy_text::{PolicyTextFault, read_policy_text};
pub use reading::read_table;
