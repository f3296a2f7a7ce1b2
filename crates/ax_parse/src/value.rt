//! The values of words, texts and numbers.

ghost use Rattle.std.specs.Prelude.{◌≡◌, ◌≤◌, ◌==◌, Some, None, IfOk, Err, nat_le, pos, if◌then◌else◌};
ghost use Rattle.ax_grammar.specs.ExprReader.{constant_of};
ghost use Rattle.std.specs.Option.{SomeIff};
ghost use Rattle.ax_lex.specs.Lexemes.{text_of};
ghost use Rattle.ax_lex.specs.Tokens.{number_of};
ghost use Rattle.ax_grammar.specs.Tables.{greatest_u32, greatest_literal, least_magnitude};
ghost use Rattle.ax_parse.specs.Reads.{IsValue};

use crate::fault::ParseFault;
use ax_lex::{Keyword, number, text_value};
use ax_mean::{Expr, Memory, Shared, Text, Tree, Value};
use std::alloc::Global;

/// The greatest number of a position or a count.
const GREATEST_COUNT: u64 = 4_294_967_295;

/// The greatest number of a literal, and the number that is one only behind a minus.
const GREATEST_LITERAL: u64 = 9_223_372_036_854_775_807;

const LEAST_MAGNITUDE: u64 = 9_223_372_036_854_775_808;

/// A word in memory of its own.
pub(crate) fn copy_of(alloc: Global, word: &str) -> Result<Text, Memory>
    ensures { IfOk result (λ text. text ≡ word.now) }
{
    Ok(Text::from_string(String::from_str(alloc, word)?))
}

/// What stands in a text.
pub(crate) fn text_of(alloc: Global, bytes: &[u8]) -> Result<Text, ParseFault>
    ensures { IsValue result (text_of bytes.now) }
{
    Ok(Text::from_string(text_value(alloc, bytes)?))
}

/// The number that may be a position or a count.
pub(crate) fn count(digits: &[u8]) -> Option<u32>
    ensures { SomeIff result (number_of digits.now ≤ greatest_u32) (number_of digits.now) }
{
    let value = number(digits, GREATEST_COUNT)?;
    u32::try_from(value).ok()
}

/// The number that may be a literal.
pub(crate) fn literal_number(digits: &[u8]) -> Result<i64, ParseFault>
    ensures { IsValue result (if nat_le (number_of digits.now) greatest_literal
        then Some (pos (number_of digits.now)) else None) }
{
    let Some(value) = number(digits, GREATEST_LITERAL) else {
        return Err(ParseFault::Text);
    };
    match i64::try_from(value) {
        Ok(value) => Ok(value),
        Err(_) => Err(ParseFault::Text),
    }
}

/// Is this the number that is a literal only behind a minus?
pub(crate) fn is_least(digits: &[u8]) -> bool
    ensures { result ≡ (number_of digits.now == least_magnitude) }
{
    number(digits, LEAST_MAGNITUDE) == Some(LEAST_MAGNITUDE)
}

/// The constant that a keyword is.
pub(crate) fn constant_of(alloc: Global, which: Keyword) -> Result<Expr, ParseFault>
    ensures { IsValue result (constant_of which) }
{
    let value = match which {
        Keyword::Null => Value::Defined(Tree::Null),
        Keyword::True => Value::Defined(Tree::Truth(true)),
        Keyword::False => Value::Defined(Tree::Truth(false)),
        Keyword::Undefined => Value::Undefined,
        _ => return Err(ParseFault::Text),
    };
    Ok(Expr::Literal(Shared::new(alloc, value)?))
}
