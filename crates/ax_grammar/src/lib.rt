//! The grammar of queries: which query a text is, as definitions, and the reader that finds it. The
//! parser is proved against the reader, and the reader against the grammar.
//!
//! Stands on `ax_lex`, whose lexemes a query is read from, and on `ax_mean`, which has the queries. It
//! has definitions and laws, and no code that a program runs.
#![tactic(auto)]

pub mod laws;
