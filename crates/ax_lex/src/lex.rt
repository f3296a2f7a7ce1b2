//! Tokens, one after another.

ghost use Rattle.std.specs.Prelude.{◌≡◌, ◌-◌, ◌≤◌, IfOk, Err, List, length};
ghost use Rattle.std.specs.Option.{option_map};
ghost use Rattle.ax_lex.specs.declared.token.Token.{Token};
ghost use Rattle.ax_lex.specs.Lexeme.{Lexeme};
ghost use Rattle.ax_lex.specs.Reading.{is_space, read_symbol, read_token, with_kind, word_kind};
ghost use Rattle.ax_lex.specs.Tokens.{HasTokens};

use crate::class::{ByteClass, class_of};
use crate::fault::LexFault;
use crate::inside::after_inside;
use crate::keyword::Keyword;
use crate::symbol::{pair_symbol, single_symbol};
use crate::token::{Token, TokenKind};
use crate::word::{after_digits, split_word, spoils_number};
use std::alloc::Global;

/// The tokens of bytes that are UTF-8, as `tokens` gives them.
pub(crate) fn lex(alloc: Global, text: &[u8]) -> Result<Vec<Token>, LexFault>
    ensures ok { IfOk result
        (λ found. (lexemes : List Lexeme)
        × HasTokens (length text.now) text.now found.items lexemes) }
    ensures refused { result ≡ Err LexFault.Text
        → (tokens : List Token) (lexemes : List Lexeme)
        → ¬ (HasTokens (length text.now) text.now tokens lexemes) }
{
    // A token and the space behind it take some four bytes.
    let mut found = Vec::with_capacity(alloc, text.len() / 4)?;
    let mut rest = text;
    while let Some((&byte, after)) = rest.split_first() {
        if is_space(byte) {
            rest = after;
            continue;
        }
        let Some((kind, after)) = split_token(rest) else {
            return Err(LexFault::Text);
        };
        found.push(token_before(kind, text, rest, after))?;
        rest = after;
    }
    Ok(found)
}

/// The token from where these bytes of a text begin up to where those after it begin.
#[inline]
fn token_before(kind: TokenKind, text: &[u8], before: &[u8], after: &[u8]) -> Token
    requires starts { length before.now ≤ length text.now }
    requires ends { length after.now ≤ length text.now }
    ensures kind { result.kind ≡ kind }
    ensures start { result.start ≡ length text.now - length before.now }
    ensures end { result.end ≡ length text.now - length after.now }
{
    Token {
        kind,
        start: text.len() - before.len(),
        end: text.len() - after.len(),
    }
}

/// Is the byte white space?
#[inline]
fn is_space(byte: u8) -> bool
    ensures { result ≡ is_space byte }
{
    match class_of(byte) {
        ByteClass::Space => true,
        _ => false,
    }
}

/// Takes the token at the front off: its kind, and the bytes after it.
#[tactic(auto, unfolding(crate::specs::Reading::read_token))]
#[inline]
fn split_token(bytes: &[u8]) -> Option<(TokenKind, &[u8])>
    ensures { option_map (λ found. (found.0, found.1.now)) result
        ≡ with_kind (read_token bytes.now) }
{
    let (&first, rest) = bytes.split_first()?;
    match class_of(first) {
        ByteClass::Space => None,
        ByteClass::Letter => {
            let (word, after) = split_word(bytes)?;
            Some((word_kind(word), after))
        }
        ByteClass::Digit => {
            let after = after_digits(rest);
            if spoils_number(after) {
                None
            } else {
                Some((TokenKind::Number, after))
            }
        }
        ByteClass::Quote => {
            let after = after_inside(first, rest)?;
            Some((TokenKind::Text, after))
        }
        ByteClass::At => {
            let (_, after) = split_word(rest)?;
            Some((TokenKind::Parameter, after))
        }
        ByteClass::Sign => {
            let after = after_symbol(first, rest)?;
            Some((TokenKind::Symbol, after))
        }
    }
}

/// A word is a keyword or a name.
#[inline]
fn word_kind(word: &[u8]) -> TokenKind
    ensures { result ≡ word_kind word.now }
{
    if Keyword::of(word).is_some() {
        TokenKind::Keyword
    } else {
        TokenKind::Name
    }
}

/// The bytes after the symbol that begins with this sign: two signs, or else one.
#[inline]
fn after_symbol(sign: u8, rest: &[u8]) -> Option<&[u8]>
    ensures { option_map (λ after. after.now) result
        ≡ option_map (λ found. found.1) (read_symbol sign rest.now) }
{
    if let Some((&next, after)) = rest.split_first()
        && pair_symbol(sign, next).is_some()
    {
        return Some(after);
    }
    single_symbol(sign).map(|_| rest)
}
