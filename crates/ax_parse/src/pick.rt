//! What is picked, and how many of it.

ghost use Rattle.std.specs.Prelude.{◌≡◌, Some, map};
ghost use Rattle.ax_lex.specs.declared.symbol.Symbol.TheVariants.{Comma};
ghost use Rattle.ax_tree.specs.declared.tree.Tree.{Tree};
ghost use Rattle.ax_mean.specs.declared.value.Value.TheVariants.{Defined};
ghost use Rattle.ax_grammar.specs.ExprReader.{read_expr};
ghost use Rattle.ax_grammar.specs.QueryReader.{may_name, read_count, read_distinct, read_item, read_naming, read_pick, read_top};
ghost use Rattle.ax_grammar.specs.Reading.{all_turns, marked, parted, take_name};
ghost use Rattle.ax_grammar.specs.Tables.{count_of};
ghost use Rattle.ax_grammar.specs.Takes.Mark.{the_symbol};
ghost use Rattle.ax_scope.specs.AsWritten.{item_of, picked_of};
ghost use Rattle.ax_parse.specs.Reads.{Reads};
ghost use Rattle.ax_parse.specs.Said.{rest_said};
ghost use Rattle.ax_parse.specs.Views.{ReadsAs, TurnsAs};

use crate::build;
use crate::expr::Parser;
use crate::fault::ParseFault;
use crate::level::Level;
use crate::lexeme::{Lexeme, Rest};
use crate::mark::{Mark, behind};
use crate::step::{Parsed, Turned};
use crate::value::{copy_of, count as count_in};
use ax_lex::{Keyword, Symbol};
use ax_mean::{Expr, Items, Text, Tree, Value};
use ax_scope::{Item, ItemList, Picked};
use std::alloc::Global;

/// How many choices, NOTs and signs may stand inside one another.
pub(crate) const MOST_NESTING: u32 = 64;

#[tactic(auto, using(crate::proofs::At::expr_at))]
pub(crate) fn expression<'a>(parser: &Parser<'_>, lexemes: Rest<'a>) -> Parsed<'a, Expr>
    ensures { Reads result (read_expr parser.now.params.now (rest_said lexemes.entry)) }
{
    parser.level(MOST_NESTING, Level::Choice, lexemes)
}

/// A number, or a parameter whose value is one.
pub(crate) fn count<'a>(parser: &Parser<'_>, lexemes: Rest<'a>) -> Parsed<'a, u32>
    ensures { Reads result (read_count parser.now.params.now (rest_said lexemes.entry)) }
{
    match lexemes.split() {
        Some((Lexeme::Number(digits), rest)) => {
            let number = count_in(digits).ok_or(ParseFault::Text)?;
            Ok((number, rest))
        }
        Some((Lexeme::Parameter(word), rest)) => {
            let value = parser.params.value_of(word)?;
            let number = count_of(value.get()).ok_or(ParseFault::Text)?;
            Ok((number, rest))
        }
        _ => Err(ParseFault::Text),
    }
}

/// The count that a value is.
fn count_of(value: &Value) -> Option<u32>
    ensures { (tree : Tree) → value.now ≡ Defined tree → result ≡ count_of tree }
{
    match value {
        Value::Defined(Tree::Number(number)) => u32::try_from(*number).ok(),
        _ => None,
    }
}

/// Does DISTINCT stand first?
pub(crate) fn distinct(lexemes: Rest<'_>) -> (bool, Rest<'_>)
    ensures { read_distinct (rest_said lexemes.entry) ≡ Some (result.0, rest_said result.1) }
{
    match behind(Mark::Keyword(Keyword::Distinct), lexemes) {
        Some(rest) => (true, rest),
        None => (false, lexemes),
    }
}

/// The number after TOP, where it is written.
pub(crate) fn top<'a>(parser: &Parser<'_>, lexemes: Rest<'a>) -> Parsed<'a, Option<u32>>
    ensures { Reads result (read_top parser.now.params.now (rest_said lexemes.entry)) }
{
    match behind(Mark::Keyword(Keyword::Top), lexemes) {
        Some(rest) => {
            let (number, rest) = count(parser, rest)?;
            Ok((Some(number), rest))
        }
        None => Ok((None, lexemes)),
    }
}

/// A word that is no keyword.
pub(crate) fn name<'a>(alloc: Global, lexemes: Rest<'a>) -> Parsed<'a, Text>
    ensures { Reads result (take_name (rest_said lexemes.entry)) }
{
    match lexemes.split() {
        Some((Lexeme::Name(word), rest)) => Ok((copy_of(alloc, word)?, rest)),
        _ => Err(ParseFault::Text),
    }
}

/// `[[AS] name]`
pub(crate) fn naming<'a>(alloc: Global, lexemes: Rest<'a>) -> Parsed<'a, Option<Text>>
    ensures { Reads result (read_naming (rest_said lexemes.entry)) }
{
    match behind(Mark::Keyword(Keyword::As), lexemes) {
        Some(rest) => {
            let (name, rest) = name(alloc, rest)?;
            Ok((Some(name), rest))
        }
        None => may_name(alloc, lexemes),
    }
}

/// The name that stands first, where one does.
fn may_name<'a>(alloc: Global, lexemes: Rest<'a>) -> Parsed<'a, Option<Text>>
    ensures { Reads result (may_name (rest_said lexemes.entry)) }
{
    match lexemes.split() {
        Some((Lexeme::Name(word), rest)) => Ok((Some(copy_of(alloc, word)?), rest)),
        _ => Ok((None, lexemes)),
    }
}

/// `"*" | VALUE expr | item {"," item}`
pub(crate) fn picked<'a>(parser: &Parser<'_>, lexemes: Rest<'a>) -> Parsed<'a, Picked>
    ensures { ReadsAs picked_of result
        (read_pick parser.now.params.now (rest_said lexemes.entry)) }
{
    if let Some(rest) = behind(Mark::Symbol(Symbol::Star), lexemes) {
        return Ok((Picked::Star, rest));
    }
    if let Some(rest) = behind(Mark::Keyword(Keyword::Value), lexemes) {
        let (expr, rest) = expression(parser, rest)?;
        return Ok((Picked::Value(expr), rest));
    }
    let (items, rest) = items(parser, lexemes)?;
    Ok((Picked::Items(items), rest))
}

/// `item {"," item}`
fn items<'a>(parser: &Parser<'_>, lexemes: Rest<'a>) -> Parsed<'a, ItemList>
    ensures { ReadsAs (map item_of) result (parted (the_symbol Comma)
        (read_item parser.now.params.now) (rest_said lexemes.entry)) }
{
    let (first, rest) = item(parser, lexemes)?;
    match more_items(parser, rest) {
        Ok((more, rest)) => Ok((build::joined(first, more)?, rest)),
        Err(fault) => {
            drop(first);
            Err(fault)
        }
    }
}

/// `{"," item}`
fn more_items<'a>(parser: &Parser<'_>, lexemes: Rest<'a>) -> Parsed<'a, ItemList>
    ensures { ReadsAs (map item_of) result (all_turns (marked (the_symbol Comma)
        (read_item parser.now.params.now)) (rest_said lexemes.entry)) }
{
    let mut found = Items::new(parser.alloc);
    let mut rest = lexemes;
    for _turn in 0..lexemes.len() {
        let Some((item, after)) = next_item(parser, rest)? else {
            return Ok((found, rest));
        };
        found.push(item)?;
        rest = after;
    }
    Ok((found, rest))
}

fn next_item<'a>(parser: &Parser<'_>, lexemes: Rest<'a>) -> Turned<'a, Item>
    ensures { TurnsAs item_of result (marked (the_symbol Comma)
        (read_item parser.now.params.now) (rest_said lexemes.entry)) }
{
    let Some(rest) = behind(Mark::Symbol(Symbol::Comma), lexemes) else {
        return Ok(None);
    };
    let (item, rest) = item(parser, rest)?;
    Ok(Some((item, rest)))
}

/// `expr [[AS] name]`
fn item<'a>(parser: &Parser<'_>, lexemes: Rest<'a>) -> Parsed<'a, Item>
    ensures { ReadsAs item_of result
        (read_item parser.now.params.now (rest_said lexemes.entry)) }
{
    let (expr, rest) = expression(parser, lexemes)?;
    match naming(parser.alloc, rest) {
        Ok((name, rest)) => Ok((Item { expr, name }, rest)),
        Err(fault) => {
            drop(expr);
            Err(fault)
        }
    }
}
