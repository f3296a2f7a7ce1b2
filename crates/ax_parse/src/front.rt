//! What may stand first: operators, signs, labels, and the limits of lists and nesting.

ghost use Rattle.std.specs.Prelude.{◌≡◌, ◌&&◌, suc, length, nat_le, zero};
ghost use Rattle.ax_grammar.specs.ExprReader.{begins_least, is_minus};
ghost use Rattle.ax_grammar.specs.Fronts.{begins_step};
ghost use Rattle.ax_grammar.specs.Reading.{take_label, take_operator};
ghost use Rattle.ax_grammar.specs.Tables.{comparison_of, most_items, operator_before, sign_of};
ghost use Rattle.ax_parse.specs.Levels.{level_of, operated_operand};
ghost use Rattle.ax_parse.specs.Reads.{IsOneLess, IsValue, Reads, Sees, limited};
ghost use Rattle.ax_parse.specs.Said.{rest_said};

use crate::fault::ParseFault;
use crate::level::Operated;
use crate::lexeme::{Lexeme, Rest};
use crate::step::Parsed;
use crate::value::{copy_of, is_least, text_of};
use ax_lex::Symbol;
use ax_mean::{BinaryOp, Items, Text, UnaryOp};
use std::alloc::Global;

/// The most elements of a list that is written.
const MOST_ITEMS: usize = 256;

/// How much may stand inside: one less. `None` where nothing may.
pub(crate) fn inside(depth: u32) -> Option<u32>
    ensures { IsOneLess result depth }
{
    depth.checked_sub(1)
}

/// The list, where it has no more elements than may be written.
pub(crate) fn within_limit<T: Drop>(items: Items<T>) -> Result<Items<T>, ParseFault>
    ensures { IsValue result (limited items) }
{
    if items.as_slice().len() > MOST_ITEMS {
        return Err(ParseFault::Text);
    }
    Ok(items)
}

/// The comparison that stands first.
pub(crate) fn comparison_at(lexemes: Rest<'_>) -> Option<(BinaryOp, Rest<'_>)>
    ensures { Sees result (take_operator comparison_of (rest_said lexemes.entry)) }
{
    let (Lexeme::Symbol(which), rest) = lexemes.split()? else {
        return None;
    };
    Some((comparison_of(which)?, rest))
}

fn comparison_of(which: Symbol) -> Option<BinaryOp>
    ensures { result ≡ comparison_of which }
{
    match which {
        Symbol::Equal => Some(BinaryOp::Equal),
        Symbol::NotEqual => Some(BinaryOp::NotEqual),
        Symbol::Less => Some(BinaryOp::Less),
        Symbol::LessEqual => Some(BinaryOp::LessEqual),
        Symbol::Greater => Some(BinaryOp::Greater),
        Symbol::GreaterEqual => Some(BinaryOp::GreaterEqual),
        _ => None,
    }
}

/// The operator of a chain that stands first.
pub(crate) fn operator_at(chain: Operated, lexemes: Rest<'_>) -> Option<(BinaryOp, Rest<'_>)>
    ensures { Sees result (take_operator (operator_before (level_of (operated_operand chain)))
        (rest_said lexemes.entry)) }
{
    let (Lexeme::Symbol(which), rest) = lexemes.split()? else {
        return None;
    };
    Some((chain.operator(which)?, rest))
}

/// The sign that stands first.
pub(crate) fn sign_at(lexemes: Rest<'_>) -> Option<(UnaryOp, Rest<'_>)>
    ensures { Sees result (take_operator sign_of (rest_said lexemes.entry)) }
{
    let (Lexeme::Symbol(which), rest) = lexemes.split()? else {
        return None;
    };
    Some((sign_of(which)?, rest))
}

fn sign_of(which: Symbol) -> Option<UnaryOp>
    ensures { result ≡ sign_of which }
{
    match which {
        Symbol::Minus => Some(UnaryOp::Minus),
        Symbol::Plus => Some(UnaryOp::Plus),
        _ => None,
    }
}

/// The name of a member: a word or a text.
pub(crate) fn label<'a>(alloc: Global, lexemes: Rest<'a>) -> Parsed<'a, Text>
    ensures { Reads result (take_label (rest_said lexemes.entry)) }
{
    match lexemes.split() {
        Some((Lexeme::Name(word) | Lexeme::Keyword(_, word), rest)) => {
            Ok((copy_of(alloc, word)?, rest))
        }
        Some((Lexeme::Text(text), rest)) => Ok((text_of(alloc, text)?, rest)),
        _ => Err(ParseFault::Text),
    }
}

/// Does the least number stand behind this sign, with no step behind it?
pub(crate) fn begins_least(op: UnaryOp, lexemes: Rest<'_>) -> bool
    ensures { result ≡ is_minus op && begins_least (rest_said lexemes.entry) }
{
    match (op, lexemes.split()) {
        (UnaryOp::Minus, Some((Lexeme::Number(digits), rest))) => {
            is_least(digits) && !begins_step(rest)
        }
        _ => false,
    }
}

/// Does a step begin?
fn begins_step(lexemes: Rest<'_>) -> bool
    ensures { result ≡ begins_step (rest_said lexemes.entry) }
{
    match lexemes.split() {
        Some((Lexeme::Symbol(Symbol::Dot | Symbol::OpenBracket), _)) => true,
        _ => false,
    }
}
