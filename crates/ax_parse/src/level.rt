//! The levels of expressions, and the chains of them.

ghost use Rattle.std.specs.Prelude.{◌≡◌};
ghost use Rattle.ax_grammar.specs.Tables.{additive_of, multiplicative_of, operator_before};
ghost use Rattle.ax_parse.specs.Levels.{chain_mark, chain_operand, level_of, operated_operand};
ghost use Rattle.ax_parse.specs.Marks.{mark_of};

use crate::mark::Mark;
use ax_lex::{Keyword, Symbol};
use ax_mean::BinaryOp;

/// A level of expressions, from `a ? b : c` to what stands alone or in brackets.
#[derive(Clone, Copy, Debug)]
pub(crate) enum Level {
    Choice,
    Coalesce,
    Disjunction,
    Conjunction,
    Negation,
    Comparison,
    Concatenation,
    Sum,
    Product,
    Sign,
    Postfix,
    Atom,
}

/// A chain of operands with one mark between them.
#[derive(Clone, Copy, Debug)]
pub(crate) enum Chain {
    Coalesce,
    Or,
    And,
    Join,
}

impl Chain {
    pub(crate) fn mark(self) -> Mark
        ensures { mark_of result ≡ chain_mark self }
    {
        match self {
            Chain::Coalesce => Mark::Symbol(Symbol::Coalesce),
            Chain::Or => Mark::Keyword(Keyword::Or),
            Chain::And => Mark::Keyword(Keyword::And),
            Chain::Join => Mark::Symbol(Symbol::Join),
        }
    }

    /// The level of its operands.
    pub(crate) fn operand(self) -> Level
        ensures { result ≡ chain_operand self }
    {
        match self {
            Chain::Coalesce => Level::Disjunction,
            Chain::Or => Level::Conjunction,
            Chain::And => Level::Negation,
            Chain::Join => Level::Sum,
        }
    }
}

/// A chain of operands with operators of one level between them.
#[derive(Clone, Copy, Debug)]
pub(crate) enum Operated {
    Sum,
    Product,
}

impl Operated {
    /// The level of its operands.
    pub(crate) fn operand(self) -> Level
        ensures { result ≡ operated_operand self }
    {
        match self {
            Operated::Sum => Level::Product,
            Operated::Product => Level::Sign,
        }
    }

    /// The operator that a symbol is, where it is one of this chain.
    pub(crate) fn operator(self, which: Symbol) -> Option<BinaryOp>
        ensures { result ≡ operator_before (level_of (operated_operand self)) which }
    {
        match self {
            Operated::Sum => additive_of(which),
            Operated::Product => multiplicative_of(which),
        }
    }
}

fn additive_of(which: Symbol) -> Option<BinaryOp>
    ensures { result ≡ additive_of which }
{
    match which {
        Symbol::Plus => Some(BinaryOp::Add),
        Symbol::Minus => Some(BinaryOp::Subtract),
        _ => None,
    }
}

fn multiplicative_of(which: Symbol) -> Option<BinaryOp>
    ensures { result ≡ multiplicative_of which }
{
    match which {
        Symbol::Star => Some(BinaryOp::Multiply),
        Symbol::Slash => Some(BinaryOp::Divide),
        Symbol::Percent => Some(BinaryOp::Remainder),
        _ => None,
    }
}
