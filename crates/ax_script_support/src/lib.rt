//! Scripts over a store on a disk in memory, through the whole program: what the tests of several crates
//! have in common.
//!
//! Stands on `ax_script` and what that stands on. It has no contract: only tests use it, and what they
//! see of a run is told by its status and its output.
#![tactic(auto)]

mod script;

pub use script::{CALLS, ROOM, fresh_disk, output_by_bytes, output_of, output_over, run_words};
