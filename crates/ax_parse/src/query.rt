//! A whole query, as it is written.

ghost use Rattle.std.specs.Prelude.{◌≡◌};
ghost use Rattle.ax_grammar.specs.QueryReader.{read_written};
ghost use Rattle.ax_scope.specs.AsWritten.{written_of};
ghost use Rattle.ax_parse.specs.Said.{rest_said};
ghost use Rattle.ax_parse.specs.Views.{IsValueAs, behind_head, head_of};

use crate::expr::Parser;
use crate::fault::ParseFault;
use crate::head::{Head, up_to_joins};
use crate::lexeme::Rest;
use crate::mark::{Mark, expect};
use crate::tail::{Tail, to_the_end};
use ax_lex::Keyword;
use ax_scope::Written;

/// What the whole list of lexemes writes.
pub(crate) fn written(parser: &Parser<'_>, lexemes: Rest<'_>) -> Result<Written, ParseFault>
    ensures { IsValueAs written_of result
        (read_written parser.now.params.now (rest_said lexemes.entry)) }
{
    let rest = expect(Mark::Keyword(Keyword::Select), lexemes)?;
    let (head, rest) = up_to_joins(parser, rest)?;
    match to_the_end(parser, rest) {
        Ok(tail) => Ok(joined(head, tail)),
        Err(fault) => {
            drop(head);
            Err(fault)
        }
    }
}

/// The two halves of a query as one.
fn joined(head: Head, tail: Tail) -> Written
    ensures { written_of result ≡ behind_head (head_of head) tail }
{
    let Head {
        distinct,
        top,
        picked,
        source,
        joins,
    } = head;
    let Tail {
        condition,
        groups,
        orders,
        window,
    } = tail;
    Written {
        distinct,
        top,
        picked,
        source,
        joins,
        condition,
        groups,
        orders,
        window,
    }
}
