//! The parser of queries: the query that a text is.
//!
//! Stands on `ax_grammar`, which says what query a text is, on `ax_lex`, whose tokens it reads, and
//! on `ax_mean`, whose queries it makes. Its one contract is that of `parse`.
#![tactic(auto)]

mod atoms;
mod build;
mod callee;
mod chains;
mod clause;
mod comparisons;
mod expr;
mod fault;
mod from;
mod front;
mod head;
mod level;
mod lexeme;
mod lists;
mod mark;
mod params;
mod parsing;
mod pick;
mod plain;
mod prefixes;
mod query;
mod step;
mod tail;
mod value;

pub use fault::ParseFault;
pub use parsing::parse;
