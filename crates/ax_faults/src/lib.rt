//! The count of faults: how often what reaches outside the program has failed.
//!
//! A source, a sink and a disk each keep a [`FaultCount`]. It never falls, and its contract is that
//! a call fails only where the count rose in that call (`HasCause`). It stands on the standard
//! library alone.
#![tactic(auto)]

mod fault_count;
pub mod laws;

pub use fault_count::FaultCount;
