//! Steps: `.name`, `["name"]`, `[3]`.

ghost use Rattle.std.specs.Prelude.{◌≡◌};
ghost use Rattle.ax_lex.specs.declared.symbol.Symbol.TheVariants.{CloseBracket};
ghost use Rattle.ax_grammar.specs.Reading.{take, take_word};
ghost use Rattle.ax_grammar.specs.StepReader.{read_in_brackets, read_name_in_brackets, read_name_steps, read_steps, turn_name_step, turn_step};
ghost use Rattle.ax_grammar.specs.Takes.Mark.{the_symbol};
ghost use Rattle.ax_parse.specs.Reads.{Goes, Reads, Turns};
ghost use Rattle.ax_parse.specs.Said.{rest_said};

use crate::fault::ParseFault;
use crate::lexeme::{Lexeme, Rest};
use crate::mark::{Mark, expect};
use crate::value::{copy_of, count, text_of};
use ax_lex::Symbol;
use ax_mean::{Items, QueryStep, StepList, Text};
use std::alloc::Global;

/// A value that was read, and the rest behind it.
pub(crate) type Parsed<'a, T> = Result<(T, Rest<'a>), ParseFault>;

/// As `Parsed`, `None` where the phrase does not begin here.
pub(crate) type Turned<'a, T> = Result<Option<(T, Rest<'a>)>, ParseFault>;

/// Steps, as many as there are.
pub(crate) fn steps<'a>(alloc: Global, lexemes: Rest<'a>) -> Parsed<'a, StepList>
    ensures { Reads result (read_steps (rest_said lexemes.entry)) }
{
    let mut found = Items::new(alloc);
    let mut rest = lexemes;
    for _turn in 0..lexemes.len() {
        let Some((step, after)) = step(alloc, rest)? else {
            return Ok((found, rest));
        };
        found.push(step)?;
        rest = after;
    }
    Ok((found, rest))
}

/// Steps to names, as many as there are.
pub(crate) fn name_steps<'a>(alloc: Global, lexemes: Rest<'a>) -> Parsed<'a, Items<Text>>
    ensures { Reads result (read_name_steps (rest_said lexemes.entry)) }
{
    let mut found = Items::new(alloc);
    let mut rest = lexemes;
    for _turn in 0..lexemes.len() {
        let Some((name, after)) = name_step(alloc, rest)? else {
            return Ok((found, rest));
        };
        found.push(name)?;
        rest = after;
    }
    Ok((found, rest))
}

fn step<'a>(alloc: Global, lexemes: Rest<'a>) -> Turned<'a, QueryStep>
    ensures { Turns result (turn_step (rest_said lexemes.entry)) }
{
    match lexemes.split() {
        Some((Lexeme::Symbol(Symbol::Dot), rest)) => {
            let (name, rest) = word(alloc, rest)?;
            Ok(Some((QueryStep::Member(name), rest)))
        }
        Some((Lexeme::Symbol(Symbol::OpenBracket), rest)) => {
            let (step, rest) = in_brackets(alloc, rest)?;
            Ok(Some((step, rest)))
        }
        _ => Ok(None),
    }
}

fn name_step<'a>(alloc: Global, lexemes: Rest<'a>) -> Turned<'a, Text>
    ensures { Turns result (turn_name_step (rest_said lexemes.entry)) }
{
    match lexemes.split() {
        Some((Lexeme::Symbol(Symbol::Dot), rest)) => {
            let (name, rest) = word(alloc, rest)?;
            Ok(Some((name, rest)))
        }
        Some((Lexeme::Symbol(Symbol::OpenBracket), rest)) => {
            let (name, rest) = name_in_brackets(alloc, rest)?;
            Ok(Some((name, rest)))
        }
        _ => Ok(None),
    }
}

/// What is behind `[`.
fn in_brackets<'a>(alloc: Global, lexemes: Rest<'a>) -> Parsed<'a, QueryStep>
    ensures { Reads result (read_in_brackets (rest_said lexemes.entry)) }
{
    match lexemes.split() {
        Some((Lexeme::Text(text), rest)) => {
            let name = text_of(alloc, text)?;
            Ok((QueryStep::Member(name), behind_bracket(rest)?))
        }
        Some((Lexeme::Number(digits), rest)) => {
            let at = count(digits).ok_or(ParseFault::Text)?;
            Ok((QueryStep::Position(at), behind_bracket(rest)?))
        }
        _ => Err(ParseFault::Text),
    }
}

/// A name behind `[`.
fn name_in_brackets<'a>(alloc: Global, lexemes: Rest<'a>) -> Parsed<'a, Text>
    ensures { Reads result (read_name_in_brackets (rest_said lexemes.entry)) }
{
    match lexemes.split() {
        Some((Lexeme::Text(text), rest)) => {
            let name = text_of(alloc, text)?;
            Ok((name, behind_bracket(rest)?))
        }
        _ => Err(ParseFault::Text),
    }
}

/// What is behind `]`, which has to stand first.
fn behind_bracket(lexemes: Rest<'_>) -> Result<Rest<'_>, ParseFault>
    ensures { Goes result (take (the_symbol CloseBracket) (rest_said lexemes.entry)) }
{
    expect(Mark::Symbol(Symbol::CloseBracket), lexemes)
}

/// A name or a keyword, as it is written.
fn word<'a>(alloc: Global, lexemes: Rest<'a>) -> Parsed<'a, Text>
    ensures { Reads result (take_word (rest_said lexemes.entry)) }
{
    match lexemes.split() {
        Some((Lexeme::Name(word) | Lexeme::Keyword(_, word), rest)) => {
            Ok((copy_of(alloc, word)?, rest))
        }
        _ => Err(ParseFault::Text),
    }
}
