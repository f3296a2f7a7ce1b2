//! A query from SELECT up to its last join.

ghost use Rattle.ax_lex.specs.declared.keyword.Keyword.TheVariants.{From};
ghost use Rattle.ax_grammar.specs.QueryReader.{read_head, read_source};
ghost use Rattle.ax_grammar.specs.Reading.{behind_mark};
ghost use Rattle.ax_grammar.specs.Takes.Mark.{the_keyword};
ghost use Rattle.ax_scope.specs.AsWritten.{source_of};
ghost use Rattle.ax_parse.specs.Said.{rest_said};
ghost use Rattle.ax_parse.specs.Views.{ReadsAs, head_of};

use crate::expr::Parser;
use crate::from::{joins, source};
use crate::lexeme::Rest;
use crate::mark::{Mark, expect};
use crate::pick::{distinct, picked, top};
use crate::step::Parsed;
use ax_lex::Keyword;
use ax_scope::{JoinedList, Picked, Source};
use std::alloc::Global;

/// What stands before WHERE.
#[derive(Debug, Drop)]
pub(crate) struct Head {
    pub(crate) distinct: bool,
    /// The number after TOP.
    pub(crate) top: Option<u32>,
    pub(crate) picked: Picked,
    pub(crate) source: Source,
    pub(crate) joins: JoinedList,
}

/// What is behind SELECT, up to the last join.
pub(crate) fn up_to_joins<'a>(parser: &Parser<'_>, lexemes: Rest<'a>) -> Parsed<'a, Head>
    ensures { ReadsAs head_of result
        (read_head parser.now.params.now (rest_said lexemes.entry)) }
{
    let (distinct, rest) = distinct(lexemes);
    let (top, rest) = top(parser, rest)?;
    let (picked, rest) = picked(parser, rest)?;
    let (source, rest) = match first_source(parser.alloc, rest) {
        Ok(read) => read,
        Err(fault) => {
            drop(picked);
            return Err(fault);
        }
    };
    let (joins, rest) = match joins(parser.alloc, rest) {
        Ok(read) => read,
        Err(fault) => {
            drop(picked);
            drop(source);
            return Err(fault);
        }
    };
    let head = Head {
        distinct,
        top,
        picked,
        source,
        joins,
    };
    Ok((head, rest))
}

/// `FROM source`
fn first_source<'a>(alloc: Global, lexemes: Rest<'a>) -> Parsed<'a, Source>
    ensures { ReadsAs source_of result
        (behind_mark (the_keyword From) read_source (rest_said lexemes.entry)) }
{
    let rest = expect(Mark::Keyword(Keyword::From), lexemes)?;
    source(alloc, rest)
}
