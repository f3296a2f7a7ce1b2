//! Chains: operands with marks or operators of one level between them.

ghost use Rattle.ax_grammar.specs.ExprReader.{read_chain, read_operated, turn_chained};
ghost use Rattle.ax_grammar.specs.Reading.{all_turns, marked};
ghost use Rattle.ax_parse.specs.Levels.{chain_mark, chain_operand, chain_variant, level_of};
ghost use Rattle.ax_parse.specs.Levels.{operated_operand, operated_variant, read_at};
ghost use Rattle.ax_parse.specs.Marks.{mark_of};
ghost use Rattle.ax_parse.specs.Reads.{Reads, Turns};
ghost use Rattle.ax_parse.specs.Said.{rest_said};

use crate::build;
use crate::expr::Parser;
use crate::front::operator_at;
use crate::level::{Chain, Level, Operated};
use crate::lexeme::Rest;
use crate::mark::{Mark, behind};
use crate::step::{Parsed, Turned};
use ax_mean::{Chained, Expr, ExprList, Items, OpChain};

impl Parser<'_> {
    /// `operand {mark operand}`
    #[cycle(expr)]
    pub(crate) fn chain<'a>(&self, depth: u32, chain: Chain, lexemes: Rest<'a>) -> Parsed<'a, Expr>
        ensures { Reads result (read_chain (chain_variant chain) (chain_mark chain)
            (read_at self.now.params.now depth (level_of (chain_operand chain)))
            (rest_said lexemes.entry)) }
    {
        let (first, rest) = self.level(depth, chain.operand(), lexemes)?;
        match self.parts(depth, chain.mark(), chain.operand(), rest) {
            Ok((more, rest)) => Ok((build::chained(chain, first, more)?, rest)),
            Err(fault) => {
                drop(first);
                Err(fault)
            }
        }
    }

    /// `{mark phrase}`
    #[cycle(expr)]
    pub(crate) fn parts<'a>(
        &self,
        depth: u32,
        mark: Mark,
        level: Level,
        lexemes: Rest<'a>,
    ) -> Parsed<'a, ExprList>
        ensures { Reads result (all_turns (marked (mark_of mark)
            (read_at self.now.params.now depth (level_of level))) (rest_said lexemes.entry)) }
    {
        let mut found = Items::new(self.alloc);
        let mut rest = lexemes;
        for _turn in 0..lexemes.len() {
            let Some((part, after)) = self.part(depth, mark, level, rest)? else {
                return Ok((found, rest));
            };
            found.push(part)?;
            rest = after;
        }
        Ok((found, rest))
    }

    #[cycle(expr)]
    fn part<'a>(&self, depth: u32, mark: Mark, level: Level, lexemes: Rest<'a>) -> Turned<'a, Expr>
        ensures { Turns result (marked (mark_of mark)
            (read_at self.now.params.now depth (level_of level)) (rest_said lexemes.entry)) }
    {
        let Some(rest) = behind(mark, lexemes) else {
            return Ok(None);
        };
        let (part, rest) = self.level(depth, level, rest)?;
        Ok(Some((part, rest)))
    }

    /// `operand {operator operand}`
    #[cycle(expr)]
    pub(crate) fn operated<'a>(
        &self,
        depth: u32,
        chain: Operated,
        lexemes: Rest<'a>,
    ) -> Parsed<'a, Expr>
        ensures { Reads result (read_operated (operated_variant chain)
            (level_of (operated_operand chain))
            (read_at self.now.params.now depth (level_of (operated_operand chain)))
            (rest_said lexemes.entry)) }
    {
        let (first, rest) = self.level(depth, chain.operand(), lexemes)?;
        match self.operands(depth, chain, rest) {
            Ok((more, rest)) => Ok((build::operated(self.alloc, chain, first, more)?, rest)),
            Err(fault) => {
                drop(first);
                Err(fault)
            }
        }
    }

    #[cycle(expr)]
    fn operands<'a>(&self, depth: u32, chain: Operated, lexemes: Rest<'a>) -> Parsed<'a, OpChain>
        ensures { Reads result (all_turns (turn_chained (level_of (operated_operand chain))
            (read_at self.now.params.now depth (level_of (operated_operand chain))))
            (rest_said lexemes.entry)) }
    {
        let mut found = Items::new(self.alloc);
        let mut rest = lexemes;
        for _turn in 0..lexemes.len() {
            let Some((operand, after)) = self.operand(depth, chain, rest)? else {
                return Ok((found, rest));
            };
            found.push(operand)?;
            rest = after;
        }
        Ok((found, rest))
    }

    #[cycle(expr)]
    fn operand<'a>(
        &self,
        depth: u32,
        chain: Operated,
        lexemes: Rest<'a>,
    ) -> Turned<'a, Chained<Expr>>
        ensures { Turns result (turn_chained (level_of (operated_operand chain))
            (read_at self.now.params.now depth (level_of (operated_operand chain)))
            (rest_said lexemes.entry)) }
    {
        let Some((op, rest)) = operator_at(chain, lexemes) else {
            return Ok(None);
        };
        let (operand, rest) = self.level(depth, chain.operand(), rest)?;
        Ok(Some((Chained { op, operand }, rest)))
    }
}
