//! The clauses behind the sources: WHERE, GROUP BY, ORDER BY, OFFSET with LIMIT.

ghost use Rattle.std.specs.Prelude.{◌≡◌, Some, map};
ghost use Rattle.ax_lex.specs.declared.symbol.Symbol.TheVariants.{Comma};
ghost use Rattle.ax_grammar.specs.ExprReader.{read_expr};
ghost use Rattle.ax_grammar.specs.QueryReader.{read_condition, read_direction, read_groups, read_numbers, read_order, read_orders, read_window, some_names};
ghost use Rattle.ax_grammar.specs.Reading.{all_turns, marked, parted};
ghost use Rattle.ax_grammar.specs.StepReader.{read_name_steps};
ghost use Rattle.ax_grammar.specs.Takes.Mark.{the_symbol};
ghost use Rattle.ax_scope.specs.AsWritten.{optional_window, ordered_of};
ghost use Rattle.ax_parse.specs.Reads.{Reads};
ghost use Rattle.ax_parse.specs.Said.{rest_said};
ghost use Rattle.ax_parse.specs.Views.{ReadsAs, TurnsAs};

use crate::build;
use crate::expr::Parser;
use crate::fault::ParseFault;
use crate::lexeme::Rest;
use crate::mark::{Mark, behind, expect};
use crate::pick::{MOST_NESTING, count, expression, name};
use crate::step::{Parsed, Turned, name_steps};
use ax_lex::{Keyword, Symbol};
use ax_mean::{Expr, ExprList, Items};
use ax_scope::{NameList, Ordered, OrderedList, Window};
use std::alloc::Global;

/// `[WHERE expr]`
pub(crate) fn condition<'a>(parser: &Parser<'_>, lexemes: Rest<'a>) -> Parsed<'a, Option<Expr>>
    ensures { Reads result (read_condition parser.now.params.now (rest_said lexemes.entry)) }
{
    match behind(Mark::Keyword(Keyword::Where), lexemes) {
        Some(rest) => {
            let (expr, rest) = expression(parser, rest)?;
            Ok((Some(expr), rest))
        }
        None => Ok((None, lexemes)),
    }
}

/// `[GROUP BY expr {"," expr}]`
pub(crate) fn groups<'a>(parser: &Parser<'_>, lexemes: Rest<'a>) -> Parsed<'a, ExprList>
    ensures { Reads result (read_groups parser.now.params.now (rest_said lexemes.entry)) }
{
    match behind(Mark::Keyword(Keyword::Group), lexemes) {
        Some(rest) => {
            let rest = expect(Mark::Keyword(Keyword::By), rest)?;
            expressions(parser, rest)
        }
        None => Ok((Items::new(parser.alloc), lexemes)),
    }
}

/// `expr {"," expr}`
#[tactic(auto, using(crate::proofs::At::exprs_at))]
fn expressions<'a>(parser: &Parser<'_>, lexemes: Rest<'a>) -> Parsed<'a, ExprList>
    ensures { Reads result (parted (the_symbol Comma) (read_expr parser.now.params.now)
        (rest_said lexemes.entry)) }
{
    parser.expressions(MOST_NESTING, lexemes)
}

/// `[ORDER BY order {"," order}]`
pub(crate) fn orders<'a>(alloc: Global, lexemes: Rest<'a>) -> Parsed<'a, OrderedList>
    ensures { ReadsAs (map ordered_of) result (read_orders (rest_said lexemes.entry)) }
{
    match behind(Mark::Keyword(Keyword::Order), lexemes) {
        Some(rest) => {
            let rest = expect(Mark::Keyword(Keyword::By), rest)?;
            some_orders(alloc, rest)
        }
        None => Ok((Items::new(alloc), lexemes)),
    }
}

/// `order {"," order}`
fn some_orders<'a>(alloc: Global, lexemes: Rest<'a>) -> Parsed<'a, OrderedList>
    ensures { ReadsAs (map ordered_of) result (parted (the_symbol Comma) read_order
        (rest_said lexemes.entry)) }
{
    let (first, rest) = order(alloc, lexemes)?;
    let (more, rest) = more_orders(alloc, rest)?;
    Ok((build::joined(first, more)?, rest))
}

/// `{"," order}`
fn more_orders<'a>(alloc: Global, lexemes: Rest<'a>) -> Parsed<'a, OrderedList>
    ensures { ReadsAs (map ordered_of) result (all_turns (marked (the_symbol Comma) read_order)
        (rest_said lexemes.entry)) }
{
    let mut found = Items::new(alloc);
    let mut rest = lexemes;
    for _turn in 0..lexemes.len() {
        let Some((ordered, after)) = next_order(alloc, rest)? else {
            return Ok((found, rest));
        };
        found.push(ordered)?;
        rest = after;
    }
    Ok((found, rest))
}

fn next_order<'a>(alloc: Global, lexemes: Rest<'a>) -> Turned<'a, Ordered>
    ensures { TurnsAs ordered_of result (marked (the_symbol Comma) read_order
        (rest_said lexemes.entry)) }
{
    let Some(rest) = behind(Mark::Symbol(Symbol::Comma), lexemes) else {
        return Ok(None);
    };
    let (ordered, rest) = order(alloc, rest)?;
    Ok(Some((ordered, rest)))
}

/// `name path [ASC | DESC]`
fn order<'a>(alloc: Global, lexemes: Rest<'a>) -> Parsed<'a, Ordered>
    ensures { ReadsAs ordered_of result (read_order (rest_said lexemes.entry)) }
{
    let (alias, rest) = name(alloc, lexemes)?;
    let (path, rest) = path(alloc, rest)?;
    let (down, rest) = direction(rest);
    Ok((Ordered { alias, path, down }, rest))
}

/// Steps to names, one or more.
fn path<'a>(alloc: Global, lexemes: Rest<'a>) -> Parsed<'a, NameList>
    ensures { Reads result (some_names (read_name_steps (rest_said lexemes.entry))) }
{
    let (names, rest) = name_steps(alloc, lexemes)?;
    if names.as_slice().is_empty() {
        return Err(ParseFault::Text);
    }
    Ok((names, rest))
}

/// Does DESC stand first? ASC is passed over.
fn direction(lexemes: Rest<'_>) -> (bool, Rest<'_>)
    ensures { read_direction (rest_said lexemes.entry) ≡ Some (result.0, rest_said result.1) }
{
    if let Some(rest) = behind(Mark::Keyword(Keyword::Asc), lexemes) {
        return (false, rest);
    }
    match behind(Mark::Keyword(Keyword::Desc), lexemes) {
        Some(rest) => (true, rest),
        None => (false, lexemes),
    }
}

/// `[OFFSET count LIMIT count]`
pub(crate) fn window<'a>(parser: &Parser<'_>, lexemes: Rest<'a>) -> Parsed<'a, Option<Window>>
    ensures { ReadsAs optional_window result
        (read_window parser.now.params.now (rest_said lexemes.entry)) }
{
    match behind(Mark::Keyword(Keyword::Offset), lexemes) {
        Some(rest) => numbers(parser, rest),
        None => Ok((None, lexemes)),
    }
}

/// What is behind OFFSET.
fn numbers<'a>(parser: &Parser<'_>, lexemes: Rest<'a>) -> Parsed<'a, Option<Window>>
    ensures { ReadsAs optional_window result
        (read_numbers parser.now.params.now (rest_said lexemes.entry)) }
{
    let (offset, rest) = count(parser, lexemes)?;
    let rest = expect(Mark::Keyword(Keyword::Limit), rest)?;
    let (limit, rest) = count(parser, rest)?;
    Ok((Some(Window { offset, limit }), rest))
}
