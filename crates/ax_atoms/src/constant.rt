//! Constants of conditions.
ghost use Rattle.std.specs.Prelude.{◌≡◌, IfOk, option_map};
ghost use Rattle.ax_tree.specs.declared.tree.Tree as trees;
ghost use Rattle.ax_mean.specs.Arithmetic.{negative_of as minus_of};
ghost use Rattle.ax_mean.specs.Operators.{unary};
ghost use Rattle.ax_mean.specs.Values.{of_number, text_of as text_in};
ghost use Rattle.ax_mean.specs.declared.expr.Expr.{out-Expr};
ghost use Rattle.ax_mean.specs.declared.operator.UnaryOp.TheVariants as UnaryOp;
ghost use Rattle.ax_mean.specs.declared.value.Value.TheVariants.{Defined};
ghost use Rattle.ax_term.specs.CutValues.{cut_value};
ghost use Rattle.ax_atoms.specs.Constants.{bound_in, constant_value, single_in};
ghost use Rattle.ax_atoms.specs.Recognised.{constant as constant_in, negative_level};

use ax_mean::{Expr, Items, Memory, Tree, UnaryOp, Value};
use ax_term::{Bytes, TermValue};
use std::alloc::Global;

/// The value of a constant.
#[derive(Debug, Clone, Copy)]
pub(crate) enum Constant<'a> {
    /// No constant, or undefined.
    Nothing,
    Tree(&'a Tree),
    /// A number with a minus before it.
    Number(i64),
}

/// The constant that an expression is: a literal, or a minus before a number.
pub(crate) fn constant_of(expr: &Expr) -> Constant
    ensures { constant_value result ≡ constant_in expr.now }
{
    match expr {
        Expr::Literal(value) => literal(value.get()),
        Expr::Sign(UnaryOp::Minus, operand) => negative_of(operand.get()),
        _ => Constant::Nothing,
    }
}

/// The constant that a literal is.
fn literal(value: &Value) -> Constant
    ensures { constant_value result ≡ value.now }
{
    match value {
        Value::Defined(tree) => Constant::Tree(tree),
        Value::Undefined => Constant::Nothing,
    }
}

/// The constant that an operand is with a minus before it.
fn negative_of(operand: &Expr) -> Constant
    ensures { constant_value result ≡ negative_level (out-Expr operand.now) }
{
    match operand {
        Expr::Literal(value) => negative(value.get()),
        _ => Constant::Nothing,
    }
}

/// The number with a minus before it; nothing of what is no number.
fn negative(value: &Value) -> Constant<'static>
    ensures { constant_value result ≡ unary UnaryOp.Minus value.now }
{
    match value {
        Value::Defined(Tree::Number(number)) => negative_number(*number),
        _ => Constant::Nothing,
    }
}

/// The number with a minus before it; nothing of the least number.
fn negative_number(number: i64) -> Constant<'static>
    ensures { constant_value result ≡ of_number (minus_of number) }
{
    match number.checked_neg() {
        Some(negative) => Constant::Number(negative),
        None => Constant::Nothing,
    }
}

impl<'a> Constant<'a> {
    /// The value in terms of a scalar; none of undefined, a list and a map.
    pub(crate) fn single(&self, alloc: Global) -> Result<Option<TermValue>, Memory>
        ensures { IfOk result (λ found. option_map cut_value found ≡ single_in (constant_value self.now)) }
    {
        match self {
            Constant::Nothing => Ok(None),
            Constant::Tree(tree) => single_of(alloc, tree),
            Constant::Number(number) => Ok(Some(TermValue::Number(*number))),
        }
    }

    /// The value in terms of a number or a text; none of another value.
    pub(crate) fn bound(&self, alloc: Global) -> Result<Option<TermValue>, Memory>
        ensures { IfOk result (λ found. option_map cut_value found ≡ bound_in (constant_value self.now)) }
    {
        match self {
            Constant::Nothing => Ok(None),
            Constant::Tree(tree) => bound_of(alloc, tree),
            Constant::Number(number) => Ok(Some(TermValue::Number(*number))),
        }
    }

    /// The text that it is; none of another value.
    pub(crate) fn text(&self) -> Option<&'a str>
        ensures { option_map (λ text. text.now) result ≡ text_in (constant_value self.now) }
    {
        match self {
            Constant::Tree(Tree::Text(text)) => Some(text.as_str()),
            _ => None,
        }
    }
}

/// The value in terms of a scalar; none of a list and a map.
fn single_of(alloc: Global, tree: &Tree) -> Result<Option<TermValue>, Memory>
    ensures { IfOk result (λ found. option_map cut_value found ≡ single_in (Defined tree.now)) }
{
    match tree {
        Tree::Null => Ok(Some(TermValue::Null)),
        Tree::Truth(true) => Ok(Some(TermValue::True)),
        Tree::Truth(false) => Ok(Some(TermValue::False)),
        Tree::Number(number) => Ok(Some(TermValue::Number(*number))),
        Tree::Text(text) => Ok(Some(TermValue::Text(bytes_of(alloc, text.as_str())?))),
        Tree::List(_) => Ok(None),
        Tree::Object(_) => Ok(None),
    }
}

/// The value in terms of a number or a text; none of another.
fn bound_of(alloc: Global, tree: &Tree) -> Result<Option<TermValue>, Memory>
    ensures { IfOk result (λ found. option_map cut_value found ≡ bound_in (Defined tree.now)) }
{
    match tree {
        Tree::Number(number) => Ok(Some(TermValue::Number(*number))),
        Tree::Text(text) => Ok(Some(TermValue::Text(bytes_of(alloc, text.as_str())?))),
        _ => Ok(None),
    }
}

fn bytes_of(alloc: Global, text: &str) -> Result<Bytes, Memory>
    ensures { IfOk result (λ bytes. bytes ≡ text.now) }
{
    Ok(Items::from_vec(Vec::from_slice(alloc, text.as_bytes())?))
}
