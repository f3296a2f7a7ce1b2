//! Page tokens: where the next page of an answer begins, as a word that a line can carry.
//!
//! A token says the query with its parameters, what is left of OFFSET and LIMIT, and the key that
//! the page lies behind. Its bytes are those of docs/FORMAT.md, "Page tokens", and its word has them
//! in the URL-safe letters of base64 without padding. The crate stands on `ax_tree`, for lists that
//! contracts see as such, and on `base64`.
//!
//! Its one contract: a token has one word, `IsWordOf token word` of `specs/Words.antt`. `write_token`
//! writes it; `read_token` finds the token whose word it is given, and answers `None` exactly where
//! it is the word of none; `read_token_of` does so for the tokens of one query alone. That the texts
//! in a token are canonical, and that its key is one of its query, is for the layer above to test.
#![tactic(auto)]

mod fields;
pub mod laws;
mod letters;
mod out_of_memory;
mod page_token;
mod reading;
mod writing;

pub use out_of_memory::Memory;
pub use page_token::{Bytes, PageToken, PlaceList, TokenKey, ValueTexts};
pub use reading::{read_token, read_token_of};
pub use writing::write_token;
