//! Texts that tests build from pieces, to reach a limit: a piece many times, or many numbers. Stands on
//! nothing.
//!
//! It has no contract: only tests use it, and what they see shows that such a text is what it should be.
#![tactic(auto)]

mod texts;

pub use texts::{built, with_numbers};
