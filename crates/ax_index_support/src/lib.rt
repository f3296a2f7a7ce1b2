//! A store whose index is changed a list at a time, each list one batch that is committed, and asked:
//! what the tests of the index and the program that measures it have in common.
//!
//! Stands on `ax_index` and what that stands on. Its contracts say that a store stays `IsReady`, which
//! is all that the next call asks for.
#![tactic(auto)]

mod changes;
mod changing;

pub use changes::{pair_of, put};
pub use changing::{ask, change, look, look_in_some, merge, open};
