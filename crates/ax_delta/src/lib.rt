//! The payload of a delta of a term page: the pairs that it adds and those that it drops, by their
//! terms, which are shortened as in a base. The crate stands on `ax_leaf`, whose terms and pairs it
//! has, on `ax_gap`, whose gap lists hold the numbers of each term, on `ax_pair_list`, whose lists a
//! merge goes over and makes, and on `ax_tree`.
//!
//! Its one contract: rising changes have one payload, `IsDelta` of `specs/Payload.antt`. `encode`
//! writes it. `check` reads it, and answers `None` exactly where the bytes are no payload; what it
//! gives says of a pair whether it is added or dropped (`look`), and `merge` makes of a page's
//! pairs the one list that `IsMerge` of `specs/Merge.antt` allows.
#![tactic(auto)]

mod change;
mod changes_left;
mod checking;
mod delta;
pub mod laws;
mod looking;
mod merging;
mod numbers_left;
mod out_of_memory;
mod short_change;
mod writing;

pub use change::Change;
pub use delta::{Delta, check};
pub use merging::merge;
pub use out_of_memory::Memory;
pub use writing::{are_in_order, encode};
