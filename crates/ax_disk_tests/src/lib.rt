//! Tests of what a run leaves on a disk, and finds there: two runs over one disk, images that are damaged
//! or full, runs that the disk stops, and calls that fail.
//!
//! Stands on `ax_script` and `ax_plain` and what these stand on. It has no contract: it is code of
//! tests alone.
#![tactic(auto)]

#[cfg(test)]
mod tests;
