//! Tests of a store on a disk in memory. They show what no contract says: that a fresh store is formed and
//! memory suffices, how often the disk is read, what is there when a store is opened again, and that damage
//! in a part is not told as out of memory.
//!
//! Stands on `ax_store` and on what that stands on. It has no contract: it is code of tests alone.
#![tactic(auto)]

#[cfg(test)]
mod tests;
