//! What the canonical text of a tree holds, found without reading it into the tree: members, values,
//! ids, scalars. A text that is passed by is passed over by `memchr`, a list or a map 64 bytes at a
//! time, and nothing takes memory.
//!
//! Stands on `ax_tree` for what a canonical text is, on the words of `json` for how it quotes, and on
//! `memchr`. Its one contract: where bytes are the canonical text of a tree, `find_member` answers the
//! canonical text of the member of a name, exactly, `split_value` and `after_member` where a value and
//! a member end, `find_id` the id of a document, and `read_scalar` a scalar, the last two where JSON
//! writes the text without an escape. Of other bytes `plain_text` and `read_scalar` answer nothing, and
//! `split_value` nothing where no value ends; for the others nothing is said.
#![tactic(auto)]

mod blocks;
mod find;
mod nested;
mod number;
mod role;
mod scalar;
mod skip;
#[cfg(test)]
mod tests;
mod walking;

pub use find::{after_member, after_prefix, find_id, find_member, plain_text, split_value};
pub use scalar::{Scalar, read_scalar};
