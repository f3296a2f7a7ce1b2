//! Tests of scripts with queries: tables of queries with their replies by hand, and the program against
//! the plain machine. They show that the definitions mean what is meant.
//!
//! Stands on `ax_script` and `ax_plain` and what these stand on. It has no contract: it is code of
//! tests alone.
#![tactic(auto)]

#[cfg(test)]
mod tests;
