//! What the tokens of a text say, asked once.

ghost use Rattle.std.specs.Prelude.{◌≡◌, IfSome, IfOk, Err, None, drop, length};
ghost use Rattle.std.specs.Str.{IsUtf8};
ghost use Rattle.ax_lex.specs.Lexemes.{lexeme_of, lexemes_of};
ghost use Rattle.ax_parse.specs.Reads.{Splits};
ghost use Rattle.ax_parse.specs.Said.{said, all_said, rest_said, HasUtf8, HaveUtf8};

use crate::fault::ParseFault;
use ax_lex::{Keyword, Symbol, Token, TokenKind};
use std::alloc::Global;

/// What a token says, texts and numbers still as they are written.
#[derive(Clone, Copy, Debug)]
pub(crate) enum Lexeme<'a> {
    /// A word that is no keyword.
    Name(&'a str),
    /// Which keyword a word is, and the word as it is written.
    Keyword(Keyword, &'a str),
    /// The word after the `@`.
    Parameter(&'a str),
    /// A text with its quotes.
    Text(&'a [u8]),
    /// Digits.
    Number(&'a [u8]),
    Symbol(Symbol),
    /// Bytes that are no token of their kind. No token of a text says so.
    Nothing(TokenKind),
}

/// Lexemes that are still to be read.
#[derive(Clone, Copy, Debug)]
pub(crate) struct Rest<'a> {
    lexemes: &'a [Lexeme<'a>],
}

impl<'a> Rest<'a> {
    pub(crate) fn of(lexemes: &'a [Lexeme<'a>]) -> Rest<'a>
        ensures { rest_said result ≡ all_said lexemes.now }
    {
        Rest { lexemes }
    }

    /// How many lexemes there are.
    pub(crate) fn len(self) -> usize
        ensures { result ≡ length (rest_said self.entry) }
    {
        self.lexemes.len()
    }

    /// The first lexeme, and the rest behind it.
    #[inline]
    pub(crate) fn split(self) -> Option<(Lexeme<'a>, Rest<'a>)>
        ensures { Splits result (rest_said self.entry) }
    {
        let (first, lexemes) = self.lexemes.split_first()?;
        Some((*first, Rest { lexemes }))
    }
}

/// What the tokens of a text say. `ParseFault::Text` where a word is not UTF-8, which no token has.
pub(crate) fn lexemes<'a>(
    alloc: Global,
    text: &'a [u8],
    tokens: &[Token],
) -> Result<Vec<Lexeme<'a>>, ParseFault>
    ensures ok { IfOk result (λ found. all_said found.items ≡ lexemes_of text.now tokens.now) }
    ensures refused { result ≡ Err ParseFault.Text
        → ¬ (HaveUtf8 (lexemes_of text.now tokens.now)) }
{
    let mut found = Vec::with_capacity(alloc, tokens.len())?;
    for token in tokens {
        let Some(lexeme) = lexeme_of(text, *token) else {
            return Err(ParseFault::Text);
        };
        found.push(lexeme)?;
    }
    Ok(found)
}

/// What a token says. `None` where its word is not UTF-8.
fn lexeme_of(text: &[u8], token: Token) -> Option<Lexeme<'_>>
    ensures ok { IfSome result (λ found. said found ≡ lexeme_of text.now token) }
    ensures refused { result ≡ None → ¬ (HasUtf8 (lexeme_of text.now token)) }
{
    let bytes = token.bytes(text);
    match token.kind {
        TokenKind::Name => Some(Lexeme::Name(word(bytes)?)),
        TokenKind::Keyword => match Keyword::of(bytes) {
            Some(keyword) => Some(Lexeme::Keyword(keyword, word(bytes)?)),
            None => Some(Lexeme::Nothing(TokenKind::Keyword)),
        },
        TokenKind::Parameter => Some(Lexeme::Parameter(word(behind_first(bytes))?)),
        TokenKind::Text => Some(Lexeme::Text(bytes)),
        TokenKind::Number => Some(Lexeme::Number(bytes)),
        TokenKind::Symbol => match Symbol::of(bytes) {
            Some(symbol) => Some(Lexeme::Symbol(symbol)),
            None => Some(Lexeme::Nothing(TokenKind::Symbol)),
        },
    }
}

/// The bytes behind the first.
fn behind_first(bytes: &[u8]) -> &[u8]
    ensures { result.now ≡ drop 1 bytes.now }
{
    match bytes.split_first() {
        Some((_, rest)) => rest,
        None => bytes,
    }
}

/// The bytes as a text.
fn word(bytes: &[u8]) -> Option<&str>
    ensures ok { IfSome result (λ found. found.now ≡ bytes.now) }
    ensures refused { result ≡ None → ¬ (IsUtf8 bytes.now) }
{
    std::str::from_utf8(bytes).ok()
}
