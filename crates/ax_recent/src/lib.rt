//! Ids that were lately found, each with its number: a bounded table, to be asked before what costs reads.
//!
//! The table has a vector of places, each empty or with one id of at most 30 bytes, in the place
//! itself, and its number. An id has one place, by a hash of its bytes, so an id that is put there
//! drives out another. No call walks over the table, and none but the making takes memory. The crate
//! stands on `std` alone.
//!
//! Its one contract: the table has an id under a number only if just that was put last of what was put
//! under the id, and the id was not taken out since. It may have forgotten it.
#![tactic(auto)]

mod entry;
mod hash;
mod out_of_memory;
mod place;
mod recent_ids;

pub use out_of_memory::Memory;
pub use recent_ids::RecentIds;

#[cfg(test)]
mod tests;
