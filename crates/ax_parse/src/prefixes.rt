//! NOT and the signs, which stand before their operand.

ghost use Rattle.ax_mean.specs.declared.expr.Expr.TheVariants as expr;
ghost use Rattle.ax_grammar.specs.ExprReader.{read_negation, read_sign, read_signed};
ghost use Rattle.ax_grammar.specs.Levels as grammar;
ghost use Rattle.ax_grammar.specs.Reading.{changed};
ghost use Rattle.ax_parse.specs.Levels.{denied_at, read_at, signed_at};
ghost use Rattle.ax_parse.specs.Reads.{Reads};
ghost use Rattle.ax_parse.specs.Said.{rest_said};

use crate::build;
use crate::expr::Parser;
use crate::fault::ParseFault;
use crate::front::{begins_least, inside, sign_at};
use crate::level::Level;
use crate::lexeme::Rest;
use crate::mark::{Mark, behind};
use crate::step::Parsed;
use ax_lex::Keyword;
use ax_mean::{Expr, Tree, UnaryOp};

impl Parser<'_> {
    /// `NOT negation | comparison`
    #[cycle(expr)]
    pub(crate) fn negation<'a>(&self, depth: u32, lexemes: Rest<'a>) -> Parsed<'a, Expr>
        ensures { Reads result (read_negation (denied_at self.now.params.now depth)
            (read_at self.now.params.now depth grammar.Level.comparison)
            (rest_said lexemes.entry)) }
    {
        match behind(Mark::Keyword(Keyword::Not), lexemes) {
            Some(rest) => self.denied(depth, rest),
            None => self.level(depth, Level::Comparison, lexemes),
        }
    }

    /// What is behind NOT.
    #[cycle(expr)]
    fn denied<'a>(&self, depth: u32, lexemes: Rest<'a>) -> Parsed<'a, Expr>
        ensures { Reads result (denied_at self.now.params.now depth (rest_said lexemes.entry)) }
    {
        match inside(depth) {
            Some(depth) => self.denied_inside(depth, lexemes),
            None => Err(ParseFault::Text),
        }
    }

    #[cycle(expr)]
    fn denied_inside<'a>(&self, depth: u32, lexemes: Rest<'a>) -> Parsed<'a, Expr>
        ensures { Reads result (changed expr.Not
            (read_at self.now.params.now depth grammar.Level.negation
            (rest_said lexemes.entry))) }
    {
        let (operand, rest) = self.level(depth, Level::Negation, lexemes)?;
        Ok((build::not(self.alloc, operand)?, rest))
    }

    /// `("-" | "+") sign | postfix`
    #[cycle(expr)]
    pub(crate) fn sign<'a>(&self, depth: u32, lexemes: Rest<'a>) -> Parsed<'a, Expr>
        ensures { Reads result (read_sign (signed_at self.now.params.now depth)
            (read_at self.now.params.now depth grammar.Level.postfix) (rest_said lexemes.entry)) }
    {
        match sign_at(lexemes) {
            Some((op, rest)) => self.signed(depth, op, rest),
            None => self.level(depth, Level::Postfix, lexemes),
        }
    }

    /// What is behind a sign. The least number is a literal with its minus alone.
    #[cycle(expr)]
    fn signed<'a>(&self, depth: u32, op: UnaryOp, lexemes: Rest<'a>) -> Parsed<'a, Expr>
        ensures { Reads result
            (signed_at self.now.params.now depth op (rest_said lexemes.entry)) }
    {
        match inside(depth) {
            Some(depth) => self.signed_inside(depth, op, lexemes),
            None => Err(ParseFault::Text),
        }
    }

    #[cycle(expr)]
    fn signed_inside<'a>(&self, depth: u32, op: UnaryOp, lexemes: Rest<'a>) -> Parsed<'a, Expr>
        ensures { Reads result (read_signed
            (read_at self.now.params.now depth grammar.Level.sign) op
            (rest_said lexemes.entry)) }
    {
        if begins_least(op, lexemes) {
            let (_, rest) = lexemes.split().ok_or(ParseFault::Text)?;
            return Ok((build::literal(self.alloc, Tree::Number(i64::MIN))?, rest));
        }
        let (operand, rest) = self.level(depth, Level::Sign, lexemes)?;
        Ok((build::sign(self.alloc, op, operand)?, rest))
    }
}
