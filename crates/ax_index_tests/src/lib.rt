//! Tests of the index over a store on a disk in memory: pairs that are added, dropped and found again,
//! pages that are split and merged, several ranges, a stop after each call of the disk, and the largest sizes.
//!
//! Stands on `ax_index` and what that stands on. It has no contract: it is code of tests alone.
#![tactic(auto)]

#[cfg(test)]
mod tests;
