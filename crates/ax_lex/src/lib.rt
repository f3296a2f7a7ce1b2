//! The tokens of a query text: names, keywords, parameters, texts, numbers and symbols, with the
//! span of each.
//!
//! The crate stands on `std` alone. Its one contract: `tokens` answers the list of tokens that the
//! grammar of `specs/Tokens.antt` relates to the text, each with its span, and `LexFault::Text`
//! only where the grammar relates none. At most one list is related to a text, a law. What a token
//! says is asked by its bytes: `Keyword::of`, `Symbol::of`, `number` and `text_value`. Whether a text
//! is one word, as a name behind `@` has to be, is told by `is_word`.
#![tactic(auto)]

mod class;
mod decimal;
mod fault;
mod inside;
mod keyword;
pub mod laws;
mod lex;
mod piece;
mod symbol;
mod token;
mod tokenizing;
mod unescape;
mod word;

pub use decimal::number;
pub use fault::LexFault;
pub use keyword::Keyword;
pub use symbol::Symbol;
pub use token::{Token, TokenKind};
pub use tokenizing::tokens;
pub use unescape::text_value;
pub use word::is_word;

#[cfg(test)]
mod tests;
