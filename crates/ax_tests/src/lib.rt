//! Tests that cross crates: scripts with their replies, each failing read and write, every status, and
//! lines answered alike whatever the cache. They show what no contract says: that a call succeeds where
//! memory is there.
//!
//! Stands on `ax_script` and what that stands on. It has no contract: it is code of tests alone.
#![tactic(auto)]

#[cfg(test)]
mod tests;
