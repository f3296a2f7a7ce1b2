//! Lists of expressions and of members.

ghost use Rattle.ax_lex.specs.declared.symbol.Symbol.TheVariants.{Comma};
ghost use Rattle.ax_grammar.specs.ExprReader.{read_list, read_member, read_members};
ghost use Rattle.ax_grammar.specs.Levels as grammar;
ghost use Rattle.ax_grammar.specs.Reading.{all_turns, marked, parted};
ghost use Rattle.ax_grammar.specs.Takes.Mark.{the_symbol};
ghost use Rattle.ax_parse.specs.Levels.{read_at};
ghost use Rattle.ax_parse.specs.Reads.{Reads, Turns};
ghost use Rattle.ax_parse.specs.Said.{rest_said};

use crate::build;
use crate::expr::Parser;
use crate::front::label;
use crate::level::Level;
use crate::lexeme::Rest;
use crate::mark::{Mark, behind};
use crate::plain::closed;
use crate::step::{Parsed, Turned};
use ax_lex::Symbol;
use ax_mean::{Expr, ExprList, Items, Member, MemberList};

impl Parser<'_> {
    /// `[choice {"," choice}] close`
    #[cycle(expr)]
    pub(crate) fn list<'a>(
        &self,
        depth: u32,
        close: Symbol,
        lexemes: Rest<'a>,
    ) -> Parsed<'a, ExprList>
        ensures { Reads result (read_list (the_symbol close)
            (read_at self.now.params.now depth grammar.Level.choice) (rest_said lexemes.entry)) }
    {
        if let Some(rest) = behind(Mark::Symbol(close), lexemes) {
            return Ok((Items::new(self.alloc), rest));
        }
        let (items, rest) = self.expressions(depth, lexemes)?;
        closed(Mark::Symbol(close), items, rest)
    }

    /// `choice {"," choice}`
    #[cycle(expr)]
    pub(crate) fn expressions<'a>(&self, depth: u32, lexemes: Rest<'a>) -> Parsed<'a, ExprList>
        ensures { Reads result (parted (the_symbol Comma)
            (read_at self.now.params.now depth grammar.Level.choice) (rest_said lexemes.entry)) }
    {
        let (first, rest) = self.level(depth, Level::Choice, lexemes)?;
        match self.parts(depth, Mark::Symbol(Symbol::Comma), Level::Choice, rest) {
            Ok((more, rest)) => Ok((build::joined(first, more)?, rest)),
            Err(fault) => {
                drop(first);
                Err(fault)
            }
        }
    }

    /// `[member {"," member}] "}"`
    #[cycle(expr)]
    pub(crate) fn members<'a>(&self, depth: u32, lexemes: Rest<'a>) -> Parsed<'a, MemberList>
        ensures { Reads result
            (read_members (read_at self.now.params.now depth grammar.Level.choice)
            (rest_said lexemes.entry)) }
    {
        if let Some(rest) = behind(Mark::Symbol(Symbol::CloseBrace), lexemes) {
            return Ok((Items::new(self.alloc), rest));
        }
        let (members, rest) = self.some_members(depth, lexemes)?;
        closed(Mark::Symbol(Symbol::CloseBrace), members, rest)
    }

    /// `member {"," member}`
    #[cycle(expr)]
    fn some_members<'a>(&self, depth: u32, lexemes: Rest<'a>) -> Parsed<'a, MemberList>
        ensures { Reads result (parted (the_symbol Comma)
            (read_member (read_at self.now.params.now depth grammar.Level.choice))
            (rest_said lexemes.entry)) }
    {
        let (first, rest) = self.member(depth, lexemes)?;
        match self.more_members(depth, rest) {
            Ok((more, rest)) => Ok((build::joined(first, more)?, rest)),
            Err(fault) => {
                drop(first);
                Err(fault)
            }
        }
    }

    /// `{"," member}`
    #[cycle(expr)]
    fn more_members<'a>(&self, depth: u32, lexemes: Rest<'a>) -> Parsed<'a, MemberList>
        ensures { Reads result (all_turns (marked (the_symbol Comma)
            (read_member (read_at self.now.params.now depth grammar.Level.choice)))
            (rest_said lexemes.entry)) }
    {
        let mut found = Items::new(self.alloc);
        let mut rest = lexemes;
        for _turn in 0..lexemes.len() {
            let Some((member, after)) = self.next_member(depth, rest)? else {
                return Ok((found, rest));
            };
            found.push(member)?;
            rest = after;
        }
        Ok((found, rest))
    }

    #[cycle(expr)]
    fn next_member<'a>(&self, depth: u32, lexemes: Rest<'a>) -> Turned<'a, Member<Expr>>
        ensures { Turns result (marked (the_symbol Comma)
            (read_member (read_at self.now.params.now depth grammar.Level.choice))
            (rest_said lexemes.entry)) }
    {
        let Some(rest) = behind(Mark::Symbol(Symbol::Comma), lexemes) else {
            return Ok(None);
        };
        let (member, rest) = self.member(depth, rest)?;
        Ok(Some((member, rest)))
    }

    /// `label ":" choice`
    #[cycle(expr)]
    fn member<'a>(&self, depth: u32, lexemes: Rest<'a>) -> Parsed<'a, Member<Expr>>
        ensures { Reads result (read_member (read_at self.now.params.now depth grammar.Level.choice)
            (rest_said lexemes.entry)) }
    {
        let (name, rest) = label(self.alloc, lexemes)?;
        match self.after(depth, Mark::Symbol(Symbol::Colon), Level::Choice, rest) {
            Ok((value, rest)) => Ok((Member { name, value }, rest)),
            Err(fault) => {
                drop(name);
                Err(fault)
            }
        }
    }
}
