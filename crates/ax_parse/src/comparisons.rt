//! Comparisons, IN, BETWEEN and LIKE.

ghost use Rattle.ax_lex.specs.declared.symbol.Symbol.TheVariants.{CloseParenthesis, Comma};
ghost use Rattle.ax_lex.specs.declared.keyword.Keyword.TheVariants.{And};
ghost use Rattle.ax_mean.specs.declared.expr.Expr.TheVariants as expr;
ghost use Rattle.ax_grammar.specs.ExprReader.{compare_or_predicate, read_among, read_between};
ghost use Rattle.ax_grammar.specs.ExprReader.{read_comparison, read_like, read_predicate};
ghost use Rattle.ax_grammar.specs.ExprReader.{within_limit};
ghost use Rattle.ax_grammar.specs.Levels as grammar;
ghost use Rattle.ax_grammar.specs.Reading.{behind_mark, changed, closed_by, parted, take_operator};
ghost use Rattle.ax_grammar.specs.Tables.{comparison_of};
ghost use Rattle.ax_grammar.specs.Takes.Mark.{the_keyword, the_symbol};
ghost use Rattle.ax_parse.specs.Levels.{alone, read_at};
ghost use Rattle.ax_parse.specs.Reads.{Reads};
ghost use Rattle.ax_parse.specs.Said.{rest_said};

use crate::build;
use crate::expr::Parser;
use crate::fault::ParseFault;
use crate::front::{comparison_at, within_limit};
use crate::level::Level;
use crate::lexeme::Rest;
use crate::mark::{Mark, behind};
use crate::plain::{alone, closed};
use crate::step::Parsed;
use ax_lex::{Keyword, Symbol};
use ax_mean::{BinaryOp, Expr, ExprList};

impl Parser<'_> {
    /// `cat [relop cat | [NOT] IN .. | [NOT] BETWEEN .. | [NOT] LIKE ..]`
    #[cycle(expr)]
    pub(crate) fn comparison<'a>(&self, depth: u32, lexemes: Rest<'a>) -> Parsed<'a, Expr>
        ensures { Reads result (read_comparison
            (read_at self.now.params.now depth grammar.Level.choice)
            (read_at self.now.params.now depth grammar.Level.concatenation)
            (rest_said lexemes.entry)) }
    {
        let (left, rest) = self.level(depth, Level::Concatenation, lexemes)?;
        self.compared(depth, left, rest)
    }

    /// What is behind the left operand of a comparison.
    #[cycle(expr)]
    fn compared<'a>(&self, depth: u32, left: Expr, lexemes: Rest<'a>) -> Parsed<'a, Expr>
        ensures { Reads result (compare_or_predicate
            (read_at self.now.params.now depth grammar.Level.choice)
            (read_at self.now.params.now depth grammar.Level.concatenation)
            left (take_operator comparison_of (rest_said lexemes.entry))
            (rest_said lexemes.entry)) }
    {
        match comparison_at(lexemes) {
            Some((op, rest)) => self.compare(depth, op, left, rest),
            None => match behind(Mark::Keyword(Keyword::Not), lexemes) {
                Some(rest) => self.predicate(depth, true, left, rest),
                None => self.predicate(depth, false, left, lexemes),
            },
        }
    }

    #[cycle(expr)]
    fn compare<'a>(
        &self,
        depth: u32,
        op: BinaryOp,
        left: Expr,
        lexemes: Rest<'a>,
    ) -> Parsed<'a, Expr>
        ensures { Reads result (changed (expr.Compare op left)
            (read_at self.now.params.now depth grammar.Level.concatenation
            (rest_said lexemes.entry))) }
    {
        match self.level(depth, Level::Concatenation, lexemes) {
            Ok((right, rest)) => Ok((build::compare(self.alloc, op, left, right)?, rest)),
            Err(fault) => {
                drop(left);
                Err(fault)
            }
        }
    }

    /// IN, BETWEEN or LIKE behind its left operand. Without a NOT there may be none.
    #[cycle(expr)]
    fn predicate<'a>(
        &self,
        depth: u32,
        negated: bool,
        left: Expr,
        lexemes: Rest<'a>,
    ) -> Parsed<'a, Expr>
        ensures { Reads result (read_predicate
            (read_at self.now.params.now depth grammar.Level.choice)
            (read_at self.now.params.now depth grammar.Level.concatenation)
            negated left (alone negated left) (rest_said lexemes.entry)) }
    {
        match behind(Mark::Keyword(Keyword::In), lexemes) {
            Some(rest) => self.among(depth, negated, left, rest),
            None => match behind(Mark::Keyword(Keyword::Between), lexemes) {
                Some(rest) => self.between(depth, negated, left, rest),
                None => match behind(Mark::Keyword(Keyword::Like), lexemes) {
                    Some(rest) => self.like(depth, negated, left, rest),
                    None => alone(negated, left, lexemes),
                },
            },
        }
    }

    /// What is behind `left IN`.
    #[cycle(expr)]
    fn among<'a>(
        &self,
        depth: u32,
        negated: bool,
        left: Expr,
        lexemes: Rest<'a>,
    ) -> Parsed<'a, Expr>
        ensures { Reads result (read_among
            (read_at self.now.params.now depth grammar.Level.choice) negated left
            (rest_said lexemes.entry)) }
    {
        match behind(Mark::Symbol(Symbol::OpenParenthesis), lexemes) {
            Some(rest) => self.among_items(depth, negated, left, rest),
            None => {
                drop(left);
                Err(ParseFault::Text)
            }
        }
    }

    /// What is behind `left IN (`.
    #[cycle(expr)]
    fn among_items<'a>(
        &self,
        depth: u32,
        negated: bool,
        left: Expr,
        lexemes: Rest<'a>,
    ) -> Parsed<'a, Expr>
        ensures { Reads result (changed (expr.Among negated left)
            (closed_by (the_symbol CloseParenthesis) (within_limit (parted (the_symbol Comma)
            (read_at self.now.params.now depth grammar.Level.choice)
            (rest_said lexemes.entry))))) }
    {
        match self.closed_items(depth, lexemes) {
            Ok((items, rest)) => Ok((build::among(self.alloc, negated, left, items)?, rest)),
            Err(fault) => {
                drop(left);
                Err(fault)
            }
        }
    }

    /// `choice {"," choice} ")"`
    #[cycle(expr)]
    fn closed_items<'a>(&self, depth: u32, lexemes: Rest<'a>) -> Parsed<'a, ExprList>
        ensures { Reads result (closed_by (the_symbol CloseParenthesis)
            (within_limit (parted (the_symbol Comma)
            (read_at self.now.params.now depth grammar.Level.choice)
            (rest_said lexemes.entry)))) }
    {
        let (items, rest) = self.expressions(depth, lexemes)?;
        closed(
            Mark::Symbol(Symbol::CloseParenthesis),
            within_limit(items)?,
            rest,
        )
    }

    /// What is behind `left BETWEEN`.
    #[cycle(expr)]
    fn between<'a>(
        &self,
        depth: u32,
        negated: bool,
        left: Expr,
        lexemes: Rest<'a>,
    ) -> Parsed<'a, Expr>
        ensures { Reads result (read_between
            (read_at self.now.params.now depth grammar.Level.concatenation) negated left
            (rest_said lexemes.entry)) }
    {
        match self.level(depth, Level::Concatenation, lexemes) {
            Ok((low, rest)) => self.high(depth, negated, left, low, rest),
            Err(fault) => {
                drop(left);
                Err(fault)
            }
        }
    }

    /// What is behind `left BETWEEN low`.
    #[cycle(expr)]
    fn high<'a>(
        &self,
        depth: u32,
        negated: bool,
        left: Expr,
        low: Expr,
        lexemes: Rest<'a>,
    ) -> Parsed<'a, Expr>
        ensures { Reads result (changed (expr.Between negated left low)
            (behind_mark (the_keyword And)
            (read_at self.now.params.now depth grammar.Level.concatenation)
            (rest_said lexemes.entry))) }
    {
        match self.after(
            depth,
            Mark::Keyword(Keyword::And),
            Level::Concatenation,
            lexemes,
        ) {
            Ok((high, rest)) => Ok((build::between(self.alloc, negated, left, low, high)?, rest)),
            Err(fault) => {
                drop(left);
                drop(low);
                Err(fault)
            }
        }
    }

    /// What is behind `left LIKE`.
    #[cycle(expr)]
    fn like<'a>(&self, depth: u32, negated: bool, left: Expr, lexemes: Rest<'a>) -> Parsed<'a, Expr>
        ensures { Reads result (read_like
            (read_at self.now.params.now depth grammar.Level.concatenation) negated left
            (rest_said lexemes.entry)) }
    {
        match self.level(depth, Level::Concatenation, lexemes) {
            Ok((pattern, rest)) => Ok((build::like(self.alloc, negated, left, pattern)?, rest)),
            Err(fault) => {
                drop(left);
                Err(fault)
            }
        }
    }
}
