//! Expressions, a level at a time. `depth` is how many choices, NOTs and signs may still stand
//! inside one another.
//!
//! Where a call fails, what was read before it is let go by name: the drop of an expression is then
//! one call, and not a part of the function that holds it.

ghost use Rattle.ax_lex.specs.declared.symbol.Symbol.TheVariants.{Colon};
ghost use Rattle.ax_mean.specs.declared.expr.Expr.TheVariants as expr;
ghost use Rattle.ax_grammar.specs.ExprReader.{read_branches, read_choice};
ghost use Rattle.ax_grammar.specs.Levels as grammar;
ghost use Rattle.ax_grammar.specs.Reading.{behind_mark, changed};
ghost use Rattle.ax_grammar.specs.Takes.Mark.{the_symbol};
ghost use Rattle.ax_parse.specs.Levels.{level_of, read_at, read_by};
ghost use Rattle.ax_parse.specs.Marks.{mark_of};
ghost use Rattle.ax_parse.specs.Reads.{Reads};
ghost use Rattle.ax_parse.specs.Said.{rest_said};

use crate::build;
use crate::fault::ParseFault;
use crate::front::inside;
use crate::level::{Chain, Level, Operated};
use crate::lexeme::Rest;
use crate::mark::{Mark, behind};
use crate::params::Params;
use crate::step::Parsed;
use ax_lex::Symbol;
use ax_mean::Expr;
use std::alloc::Global;

/// What is passed on while a query is read.
#[derive(Clone, Copy, Debug)]
pub(crate) struct Parser<'p> {
    pub(crate) alloc: Global,
    /// The parameters; their names have the `@`.
    pub(crate) params: &'p Params,
}

impl Parser<'_> {
    #[cycle(expr)]
    pub(crate) fn level<'a>(&self, depth: u32, level: Level, lexemes: Rest<'a>) -> Parsed<'a, Expr>
        ensures { Reads result
            (read_at self.now.params.now depth (level_of level) (rest_said lexemes.entry)) }
    {
        self.by_level(depth, level, lexemes)
    }

    #[cycle(expr)]
    fn by_level<'a>(&self, depth: u32, level: Level, lexemes: Rest<'a>) -> Parsed<'a, Expr>
        ensures { Reads result
            (read_by self.now.params.now depth level (rest_said lexemes.entry)) }
    {
        match level {
            Level::Choice => self.choice(depth, lexemes),
            Level::Coalesce => self.chain(depth, Chain::Coalesce, lexemes),
            Level::Disjunction => self.chain(depth, Chain::Or, lexemes),
            Level::Conjunction => self.chain(depth, Chain::And, lexemes),
            Level::Negation => self.negation(depth, lexemes),
            Level::Comparison => self.comparison(depth, lexemes),
            Level::Concatenation => self.chain(depth, Chain::Join, lexemes),
            Level::Sum => self.operated(depth, Operated::Sum, lexemes),
            Level::Product => self.operated(depth, Operated::Product, lexemes),
            Level::Sign => self.sign(depth, lexemes),
            Level::Postfix => self.postfix(depth, lexemes),
            Level::Atom => self.atom(depth, lexemes),
        }
    }

    /// What is behind a mark that has to stand first.
    #[cycle(expr)]
    pub(crate) fn after<'a>(
        &self,
        depth: u32,
        mark: Mark,
        level: Level,
        lexemes: Rest<'a>,
    ) -> Parsed<'a, Expr>
        ensures { Reads result (behind_mark (mark_of mark)
            (read_at self.now.params.now depth (level_of level)) (rest_said lexemes.entry)) }
    {
        match behind(mark, lexemes) {
            Some(rest) => self.level(depth, level, rest),
            None => Err(ParseFault::Text),
        }
    }

    /// `coalesce ["?" choice ":" choice]`
    #[cycle(expr)]
    fn choice<'a>(&self, depth: u32, lexemes: Rest<'a>) -> Parsed<'a, Expr>
        ensures { Reads result
            (read_at self.now.params.now depth grammar.Level.choice (rest_said lexemes.entry)) }
    {
        match inside(depth) {
            Some(depth) => self.chosen(depth, lexemes),
            None => Err(ParseFault::Text),
        }
    }

    #[cycle(expr)]
    fn chosen<'a>(&self, depth: u32, lexemes: Rest<'a>) -> Parsed<'a, Expr>
        ensures { Reads result (read_choice
            (read_at self.now.params.now depth grammar.Level.coalesce)
            (read_at self.now.params.now depth grammar.Level.choice)
            (rest_said lexemes.entry)) }
    {
        let (test, rest) = self.level(depth, Level::Coalesce, lexemes)?;
        match behind(Mark::Symbol(Symbol::Question), rest) {
            Some(rest) => self.branches(depth, test, rest),
            None => Ok((test, rest)),
        }
    }

    /// What is behind `test ?`.
    #[cycle(expr)]
    fn branches<'a>(&self, depth: u32, test: Expr, lexemes: Rest<'a>) -> Parsed<'a, Expr>
        ensures { Reads result
            (read_branches (read_at self.now.params.now depth grammar.Level.choice)
            test (rest_said lexemes.entry)) }
    {
        match self.level(depth, Level::Choice, lexemes) {
            Ok((first, rest)) => self.second(depth, test, first, rest),
            Err(fault) => {
                drop(test);
                Err(fault)
            }
        }
    }

    /// What is behind `test ? first`.
    #[cycle(expr)]
    fn second<'a>(&self, depth: u32, test: Expr, first: Expr, lexemes: Rest<'a>) -> Parsed<'a, Expr>
        ensures { Reads result (changed (expr.Choice test first)
            (behind_mark (the_symbol Colon)
            (read_at self.now.params.now depth grammar.Level.choice)
            (rest_said lexemes.entry))) }
    {
        match self.after(depth, Mark::Symbol(Symbol::Colon), Level::Choice, lexemes) {
            Ok((second, rest)) => Ok((build::choice(self.alloc, test, first, second)?, rest)),
            Err(fault) => {
                drop(test);
                drop(first);
                Err(fault)
            }
        }
    }
}
