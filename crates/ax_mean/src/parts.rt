//! The parts of an expression, one after another. Whoever treats all forms of expressions alike goes
//! by these, and names no form.
ghost use Rattle.std.specs.Prelude.{◌≡◌, ◌<◌, [], ◌∷◌, map, sum, IfSome, IfNone};
ghost use Rattle.std.specs.Iterator.{YieldsFirstRef, item_count};
ghost use Rattle.ax_mean.specs.Parts.{parts_of, size};
ghost use Rattle.ax_mean.specs.PartsLeft.{listed_left};

use crate::boxed::Boxed;
use crate::expr::{Chained, Expr, ExprList, OpChain};
use ax_tree::Member;
use std::marker::Model;

/// The parts of an expression that are not yet taken, in the order of the text. Contracts see the
/// list. It takes no memory.
#[derive(Debug, Drop)]
pub struct Parts<'a> {
    first: Option<&'a Expr>,
    second: Option<&'a Expr>,
    third: Option<&'a Expr>,
    // Those behind the first three.
    listed: Listed<'a>,
}

/// Parts that stand in a list of the expression.
#[derive(Clone, Copy, Debug)]
enum Listed<'a> {
    Items(&'a [Expr]),
    Operands(&'a [Chained<Expr>]),
    Members(&'a [Member<Expr>]),
}

impl<'a> Model for Parts<'a> {
    ghost use Rattle.std.specs.Prelude.{List};
    ghost use Rattle.std.specs.Coded.{coded_list};
    ghost use Rattle.ax_mean.specs.declared.expr.Expr.{Expr};
    ghost use Rattle.ax_mean.specs.contracts.expr.Expr as expr;
    ghost use Rattle.ax_mean.specs.PartsLeft.{parts_left};

    ghost Value = { List Expr };

    ghost coded = { coded_list expr.the_row.coded };

    ghost view = { parts_left };
}

impl Expr {
    /// The expressions that stand directly in this one, in the order of the text.
    pub fn parts(&self) -> Parts<'_>
        ensures parts { result ≡ parts_of self.now }
        ensures smaller { sum (map size result) < size self.now }
    {
        Parts::of(self)
    }
}

impl<'a> Parts<'a> {
    fn of(expr: &'a Expr) -> Parts<'a>
        ensures { result ≡ parts_of expr.now }
    {
        match expr {
            Expr::Literal(_) | Expr::Alias(_) => Parts::listed(Listed::Items(&[])),
            Expr::Steps(a, _) | Expr::Not(a) | Expr::Sign(_, a) | Expr::Total(_, a) => Parts::one(
                a,
            ),
            Expr::Compare(_, a, b) => Parts::two(a, b),
            Expr::Like { left, pattern, .. } => Parts::two(left, pattern),
            Expr::Choice(test, a, b) => Parts::three(test, a, b),
            Expr::Between {
                left,
                low,
                high,
                ..
            } => Parts::three(left, low, high),
            Expr::Coalesce(items)
            | Expr::Or(items)
            | Expr::And(items)
            | Expr::Join(items)
            | Expr::Call(_, items)
            | Expr::List(items) => Parts::listed(Listed::Items(items.as_slice())),
            Expr::Among { left, items, .. } => Parts::behind(left, Listed::Items(items.as_slice())),
            Expr::Sum(first, rest) | Expr::Product(first, rest) => {
                Parts::behind(first, Listed::Operands(rest.as_slice()))
            }
            Expr::Object(members) => Parts::listed(Listed::Members(members.as_slice())),
        }
    }

    fn listed(listed: Listed<'a>) -> Parts<'a>
        ensures { result ≡ listed_left listed.entry }
    {
        Parts {
            first: None,
            second: None,
            third: None,
            listed,
        }
    }

    fn behind(first: &'a Boxed<Expr>, listed: Listed<'a>) -> Parts<'a>
        ensures { result ≡ first.now ∷ listed_left listed.entry }
    {
        Parts {
            first: Some(first.get()),
            second: None,
            third: None,
            listed,
        }
    }

    fn one(first: &'a Boxed<Expr>) -> Parts<'a>
        ensures { result ≡ first.now ∷ [] }
    {
        Parts::behind(first, Listed::Items(&[]))
    }

    fn two(first: &'a Boxed<Expr>, second: &'a Boxed<Expr>) -> Parts<'a>
        ensures { result ≡ first.now ∷ second.now ∷ [] }
    {
        Parts {
            first: Some(first.get()),
            second: Some(second.get()),
            third: None,
            listed: Listed::Items(&[]),
        }
    }

    fn three(first: &'a Boxed<Expr>, second: &'a Boxed<Expr>, third: &'a Boxed<Expr>) -> Parts<'a>
        ensures { result ≡ first.now ∷ second.now ∷ third.now ∷ [] }
    {
        Parts {
            first: Some(first.get()),
            second: Some(second.get()),
            third: Some(third.get()),
            listed: Listed::Items(&[]),
        }
    }
}

impl<'a> Iterator for Parts<'a> {
    type Item = &'a Expr;

    ghost next_gives = { YieldsFirstRef (λ parts. parts) };

    ghost remaining = { item_count (λ parts. parts) };

    fn next(&mut self) -> Option<&'a Expr> {
        if let Some(part) = self.first.take() {
            return Some(part);
        }
        if let Some(part) = self.second.take() {
            return Some(part);
        }
        if let Some(part) = self.third.take() {
            return Some(part);
        }
        let (part, behind) = self.listed.split_first()?;
        self.listed = behind;
        Some(part)
    }
}

impl<'a> Listed<'a> {
    /// The first part and those behind it.
    fn split_first(self) -> Option<(&'a Expr, Listed<'a>)>
        ensures some { IfSome result (λ parts. listed_left self.entry ≡ parts.0.now ∷ listed_left parts.1) }
        ensures none { IfNone result (listed_left self.entry ≡ []) }
    {
        match self {
            Listed::Items(items) => {
                let (part, behind) = items.split_first()?;
                Some((part, Listed::Items(behind)))
            }
            Listed::Operands(chain) => {
                let (chained, behind) = chain.split_first()?;
                Some((&chained.operand, Listed::Operands(behind)))
            }
            Listed::Members(members) => {
                let (member, behind) = members.split_first()?;
                Some((&member.value, Listed::Members(behind)))
            }
        }
    }
}
