//! Tests of lines: what a line asks for, or its refusal; the bodies of queries; and each limit at its
//! border.
//!
//! Stands on `ax_lines` and `ax_tree` and what these stand on. It has no contract: it is code of tests
//! alone.
#![tactic(auto)]

#[cfg(test)]
mod tests;
