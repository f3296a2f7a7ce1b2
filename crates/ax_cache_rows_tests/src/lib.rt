//! Tests of page caches: worked scripts, each served by an engine without a cache, with one of one part and with one of many,
//! and how often the disk is read for a line that comes twice. They show that a cache changes no answer, and spares reads.
//!
//! Stands on `ax_script` and what that stands on. It has no contract: it is code of tests alone.
#![tactic(auto)]

#[cfg(test)]
mod tests;
