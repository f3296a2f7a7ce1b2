//! Parts of expressions in which no other expression is read.

ghost use Rattle.std.specs.Prelude.{Some, nat_le, option_map, pos};
ghost use Rattle.ax_lex.specs.Tokens.{number_of};
ghost use Rattle.ax_tree.specs.declared.tree.Tree.TheVariants as tree;
ghost use Rattle.ax_grammar.specs.ExprReader.{constant_of, literal, stepped_of};
ghost use Rattle.ax_grammar.specs.Reading.{changed, closed_by, provided};
ghost use Rattle.ax_grammar.specs.StepReader.{read_steps};
ghost use Rattle.ax_grammar.specs.Tables.{greatest_literal, parameter_of};
ghost use Rattle.ax_parse.specs.Levels.{alone};
ghost use Rattle.ax_parse.specs.Marks.{mark_of};
ghost use Rattle.ax_parse.specs.Reads.{Reads};
ghost use Rattle.ax_parse.specs.Said.{rest_said};

use crate::build;
use crate::fault::ParseFault;
use crate::lexeme::Rest;
use crate::mark::{Mark, expect};
use crate::params::Params;
use crate::step::{Parsed, steps};
use crate::value::{constant_of, literal_number};
use ax_lex::Keyword;
use ax_mean::{Expr, Tree};
use std::alloc::Global;

/// The value, where the mark stands behind it.
pub(crate) fn closed<'a, T: Drop>(mark: Mark, value: T, lexemes: Rest<'a>) -> Parsed<'a, T>
    ensures { Reads result (closed_by (mark_of mark) (Some (value, rest_said lexemes.entry))) }
{
    let rest = expect(mark, lexemes)?;
    Ok((value, rest))
}

/// The operand behind which no predicate stands. Behind a NOT there has to be one.
pub(crate) fn alone<'a>(negated: bool, operand: Expr, lexemes: Rest<'a>) -> Parsed<'a, Expr>
    ensures { Reads result (alone negated operand (rest_said lexemes.entry)) }
{
    if negated {
        drop(operand);
        return Err(ParseFault::Text);
    }
    Ok((operand, lexemes))
}

/// What stands behind an atom.
pub(crate) fn stepped<'a>(alloc: Global, first: Expr, lexemes: Rest<'a>) -> Parsed<'a, Expr>
    ensures { Reads result (changed (stepped_of first) (read_steps (rest_said lexemes.entry))) }
{
    match steps(alloc, lexemes) {
        Ok((steps, rest)) => Ok((build::stepped(alloc, first, steps)?, rest)),
        Err(fault) => {
            drop(first);
            Err(fault)
        }
    }
}

pub(crate) fn constant<'a>(alloc: Global, which: Keyword, lexemes: Rest<'a>) -> Parsed<'a, Expr>
    ensures { Reads result
        (option_map (λ x. (x, rest_said lexemes.entry)) (constant_of which)) }
{
    Ok((constant_of(alloc, which)?, lexemes))
}

/// The value of a parameter, by the word behind its `@`.
pub(crate) fn parameter<'a>(params: &Params, word: &str, lexemes: Rest<'a>) -> Parsed<'a, Expr>
    ensures { Reads result (option_map (λ value. (literal value, rest_said lexemes.entry))
        (parameter_of params.now word.now)) }
{
    let value = params.value_of(word)?;
    Ok((Expr::Literal(value.share()?), lexemes))
}

pub(crate) fn number<'a>(alloc: Global, digits: &[u8], lexemes: Rest<'a>) -> Parsed<'a, Expr>
    ensures { Reads result (provided (nat_le (number_of digits.now) greatest_literal)
        (Some (literal (tree.Number (pos (number_of digits.now))), rest_said lexemes.entry))) }
{
    let value = literal_number(digits)?;
    Ok((build::literal(alloc, Tree::Number(value))?, lexemes))
}
