//! Tests of terms: of one place, of a document under a policy, and of what a write changes. They show worked
//! terms byte by byte, and that memory suffices.
//!
//! Stands on `ax_term`, `ax_terms` and `ax_keep`, and on `ax_policy` and `ax_text`, which read policies and
//! documents. It has no contract: it is code of tests alone.
#![tactic(auto)]

#[cfg(test)]
mod tests;
