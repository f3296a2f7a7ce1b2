//! Tests of the formats of bytes: frames and root slots, gap lists, bases and deltas.
//! They show worked spellings byte by byte, and that memory suffices.
//!
//! Stands on `ax_frame`, `ax_gap`, `ax_leaf` and `ax_delta`. It has no contract: it is code of
//! tests alone.
#![tactic(auto)]

#[cfg(test)]
mod tests;
