//! A query behind its last join.

ghost use Rattle.ax_grammar.specs.QueryReader.{Head, read_tail, whole_of};
ghost use Rattle.ax_parse.specs.Said.{rest_said};
ghost use Rattle.ax_parse.specs.Views.{IsValueAs, ReadsAs, behind_head};

use crate::clause::{condition, groups, orders, window};
use crate::expr::Parser;
use crate::fault::ParseFault;
use crate::lexeme::Rest;
use crate::step::Parsed;
use ax_mean::{Expr, ExprList};
use ax_scope::{OrderedList, Window};

/// What stands from WHERE on.
#[derive(Debug, Drop)]
pub(crate) struct Tail {
    pub(crate) condition: Option<Expr>,
    pub(crate) groups: ExprList,
    pub(crate) orders: OrderedList,
    pub(crate) window: Option<Window>,
}

/// What is behind the last join, up to the end of the text.
pub(crate) fn to_the_end(parser: &Parser<'_>, lexemes: Rest<'_>) -> Result<Tail, ParseFault>
    ensures { (head : Head) → IsValueAs (behind_head head) result
        (whole_of (read_tail parser.now.params.now head (rest_said lexemes.entry))) }
{
    let (tail, rest) = behind_joins(parser, lexemes)?;
    match rest.split() {
        Some(_) => {
            drop(tail);
            Err(ParseFault::Text)
        }
        None => Ok(tail),
    }
}

/// What is behind the last join.
fn behind_joins<'a>(parser: &Parser<'_>, lexemes: Rest<'a>) -> Parsed<'a, Tail>
    ensures { (head : Head) → ReadsAs (behind_head head) result
        (read_tail parser.now.params.now head (rest_said lexemes.entry)) }
{
    let (condition, rest) = condition(parser, lexemes)?;
    let (groups, rest) = match groups(parser, rest) {
        Ok(read) => read,
        Err(fault) => {
            drop(condition);
            return Err(fault);
        }
    };
    let (orders, rest) = match orders(parser.alloc, rest) {
        Ok(read) => read,
        Err(fault) => {
            drop(condition);
            drop(groups);
            return Err(fault);
        }
    };
    let (window, rest) = match window(parser, rest) {
        Ok(read) => read,
        Err(fault) => {
            drop(condition);
            drop(groups);
            drop(orders);
            return Err(fault);
        }
    };
    let tail = Tail {
        condition,
        groups,
        orders,
        window,
    };
    Ok((tail, rest))
}
