use crate::boxed::Boxed;
use crate::operator::{Aggregate, BinaryOp, Func, UnaryOp};
use crate::shared::Shared;
use crate::value::Value;
use ax_tree::{Items, Member, Text};

/// An expression of a query. A chain of operators of one level is one list, and its variant stands
/// only where an operator is written. Parentheses leave no variant, and a parameter is the literal of
/// its value.
#[cycle(expr)]
#[derive(Debug, Drop)]
pub enum Expr {
    Literal(Shared<Value>),
    /// The value that FROM or JOIN binds to the name.
    Alias(Text),
    /// `e.name`, `e["name"]`, `e[3]`, one step after another.
    Steps(Boxed<Expr>, StepList),
    /// `a ? b : c`
    Choice(Boxed<Expr>, Boxed<Expr>, Boxed<Expr>),
    /// `a ?? b ?? c`
    Coalesce(ExprList),
    Or(ExprList),
    And(ExprList),
    Not(Boxed<Expr>),
    /// One of the six comparisons.
    Compare(BinaryOp, Boxed<Expr>, Boxed<Expr>),
    /// `a IN (b, c)`, `a NOT IN (b, c)`
    Among {
        negated: bool,
        left: Boxed<Expr>,
        items: ExprList,
    },
    /// `a BETWEEN b AND c`, `a NOT BETWEEN b AND c`
    Between {
        negated: bool,
        left: Boxed<Expr>,
        low: Boxed<Expr>,
        high: Boxed<Expr>,
    },
    /// `a LIKE b`, `a NOT LIKE b`
    Like {
        negated: bool,
        left: Boxed<Expr>,
        pattern: Boxed<Expr>,
    },
    /// `a || b || c`
    Join(ExprList),
    /// `a + b - c`
    Sum(Boxed<Expr>, OpChain),
    /// `a * b / c % d`
    Product(Boxed<Expr>, OpChain),
    /// `-a`, `+a`
    Sign(UnaryOp, Boxed<Expr>),
    Call(Func, ExprList),
    /// COUNT(e), SUM(e), MIN(e), MAX(e): an aggregate over the rows of a group.
    Total(Aggregate, Boxed<Expr>),
    /// `[a, b]`
    List(ExprList),
    /// `{"k": a}`, with its members in the order of the text.
    Object(MemberList),
}

/// A later operand of a chain, with the operator before it.
#[derive(Debug, Drop)]
pub struct Chained<T> {
    pub op: BinaryOp,
    pub operand: T,
}

/// A step from a value to a part of it.
#[derive(Debug, Drop)]
pub enum QueryStep {
    /// To the member of that name.
    Member(Text),
    /// To the element at that position, from 0.
    Position(u32),
}

pub type ExprList = Items<Expr>;

pub type OpChain = Items<Chained<Expr>>;

pub type MemberList = Items<Member<Expr>>;

pub type StepList = Items<QueryStep>;
