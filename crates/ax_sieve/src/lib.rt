//! Which documents a query passes over, told from their texts: the conditions of WHERE that compare
//! a member of a document, or a member of a member, with a literal, or with a number that has a sign,
//! asked of that member's text.
//!
//! Stands on `ax_mean`, whose queries it reads, and on `ax_skim`, which finds members and scalars. Its one
//! contract: a document that the sieve of a query drops has no rows in that query.
#![tactic(auto)]

mod comparing;
mod condition;
mod conditions;
mod found;
mod literal;
mod operands;
mod out_of_memory;
mod path;
mod plain;
mod sieve;
mod source;

pub use out_of_memory::Memory;
pub use sieve::Sieve;
