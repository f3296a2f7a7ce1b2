//! What stands alone or in brackets, and the steps behind it.

ghost use Rattle.ax_lex.specs.declared.symbol.Symbol.TheVariants.{CloseParenthesis};
ghost use Rattle.ax_lex.specs.declared.symbol.Symbol.TheVariants.{OpenParenthesis};
ghost use Rattle.ax_mean.specs.declared.expr.Expr.TheVariants as expr;
ghost use Rattle.ax_grammar.specs.ExprReader.{read_atom, read_bracketed, read_call, read_postfix};
ghost use Rattle.ax_grammar.specs.Levels as grammar;
ghost use Rattle.ax_grammar.specs.Reading.{at_once, closed_by, where_marked};
ghost use Rattle.ax_grammar.specs.Tables.{callee_of};
ghost use Rattle.ax_grammar.specs.Takes.Mark.{the_symbol};
ghost use Rattle.ax_parse.specs.Callees.{callee_said};
ghost use Rattle.ax_parse.specs.Levels.{read_at};
ghost use Rattle.ax_parse.specs.Reads.{Reads};
ghost use Rattle.ax_parse.specs.Said.{rest_said};

use crate::build;
use crate::callee::{Callee, callee_of, may_take};
use crate::expr::Parser;
use crate::fault::ParseFault;
use crate::front::within_limit;
use crate::level::Level;
use crate::lexeme::{Lexeme, Rest};
use crate::mark::{Mark, behind};
use crate::plain::{closed, constant, number, parameter, stepped};
use crate::step::Parsed;
use crate::value::{copy_of, text_of};
use ax_lex::Symbol;
use ax_mean::{Expr, Tree};

impl Parser<'_> {
    /// `atom {step}`
    #[cycle(expr)]
    pub(crate) fn postfix<'a>(&self, depth: u32, lexemes: Rest<'a>) -> Parsed<'a, Expr>
        ensures { Reads result (read_postfix
            (read_at self.now.params.now depth grammar.Level.atom) (rest_said lexemes.entry)) }
    {
        let (first, rest) = self.level(depth, Level::Atom, lexemes)?;
        stepped(self.alloc, first, rest)
    }

    /// A literal, a parameter, a name, a call, or what stands in brackets.
    #[cycle(expr)]
    pub(crate) fn atom<'a>(&self, depth: u32, lexemes: Rest<'a>) -> Parsed<'a, Expr>
        ensures { Reads result (read_atom self.now.params.now
            (read_at self.now.params.now depth grammar.Level.choice) (rest_said lexemes.entry)) }
    {
        let (first, rest) = lexemes.split().ok_or(ParseFault::Text)?;
        match first {
            Lexeme::Name(word) => self.named(depth, word, rest),
            Lexeme::Keyword(which, _) => constant(self.alloc, which, rest),
            Lexeme::Parameter(word) => parameter(self.params, word, rest),
            Lexeme::Text(text) => {
                let value = text_of(self.alloc, text)?;
                Ok((build::literal(self.alloc, Tree::Text(value))?, rest))
            }
            Lexeme::Number(digits) => number(self.alloc, digits, rest),
            Lexeme::Symbol(which) => self.bracketed(depth, which, rest),
            Lexeme::Nothing(_) => Err(ParseFault::Text),
        }
    }

    /// What is behind a name: a call, or nothing of it.
    #[cycle(expr)]
    fn named<'a>(&self, depth: u32, word: &str, lexemes: Rest<'a>) -> Parsed<'a, Expr>
        ensures { Reads result (where_marked (the_symbol OpenParenthesis)
            (read_call (read_at self.now.params.now depth grammar.Level.choice)
            (callee_of word.now))
            (at_once (expr.Alias word.now)) (rest_said lexemes.entry)) }
    {
        match behind(Mark::Symbol(Symbol::OpenParenthesis), lexemes) {
            Some(rest) => self.call(depth, callee_of(word)?, rest),
            None => Ok((Expr::Alias(copy_of(self.alloc, word)?), lexemes)),
        }
    }

    /// What is behind the `(` of a call.
    #[cycle(expr)]
    fn call<'a>(&self, depth: u32, callee: Callee, lexemes: Rest<'a>) -> Parsed<'a, Expr>
        ensures { Reads result (read_call (read_at self.now.params.now depth grammar.Level.choice)
            (callee_said callee) (rest_said lexemes.entry)) }
    {
        match callee {
            Callee::Function(func) => {
                let (args, rest) = self.list(depth, Symbol::CloseParenthesis, lexemes)?;
                Ok((Expr::Call(func, may_take(func, args)?), rest))
            }
            Callee::Aggregate(aggregate) => {
                let (of, rest) = self.closed_choice(depth, lexemes)?;
                Ok((build::total(self.alloc, aggregate, of)?, rest))
            }
        }
    }

    /// `choice ")"`
    #[cycle(expr)]
    fn closed_choice<'a>(&self, depth: u32, lexemes: Rest<'a>) -> Parsed<'a, Expr>
        ensures { Reads result (closed_by (the_symbol CloseParenthesis)
            (read_at self.now.params.now depth grammar.Level.choice (rest_said lexemes.entry))) }
    {
        let (inner, rest) = self.level(depth, Level::Choice, lexemes)?;
        closed(Mark::Symbol(Symbol::CloseParenthesis), inner, rest)
    }

    /// What is behind an opening bracket.
    #[cycle(expr)]
    fn bracketed<'a>(&self, depth: u32, begin: Symbol, lexemes: Rest<'a>) -> Parsed<'a, Expr>
        ensures { Reads result
            (read_bracketed (read_at self.now.params.now depth grammar.Level.choice)
            begin (rest_said lexemes.entry)) }
    {
        match begin {
            Symbol::OpenParenthesis => self.closed_choice(depth, lexemes),
            Symbol::OpenBracket => {
                let (items, rest) = self.list(depth, Symbol::CloseBracket, lexemes)?;
                Ok((Expr::List(within_limit(items)?), rest))
            }
            Symbol::OpenBrace => {
                let (members, rest) = self.members(depth, lexemes)?;
                Ok((Expr::Object(within_limit(members)?), rest))
            }
            _ => Err(ParseFault::Text),
        }
    }
}
