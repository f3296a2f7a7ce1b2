//! Sources: what stands behind FROM and JOIN.

ghost use Rattle.std.specs.Prelude.{map};
ghost use Rattle.ax_lex.specs.declared.keyword.Keyword.TheVariants.{Join};
ghost use Rattle.ax_grammar.specs.QueryReader.{read_elements, read_join, read_joins, read_source, read_whole};
ghost use Rattle.ax_grammar.specs.Reading.{marked};
ghost use Rattle.ax_grammar.specs.Takes.Mark.{the_keyword};
ghost use Rattle.ax_scope.specs.AsWritten.{joined_of, source_of};
ghost use Rattle.ax_parse.specs.Said.{rest_said};
ghost use Rattle.ax_parse.specs.Views.{ReadsAs, TurnsAs};

use crate::lexeme::Rest;
use crate::mark::{Mark, behind, expect};
use crate::pick::{name, naming};
use crate::step::{Parsed, Turned, steps};
use ax_lex::Keyword;
use ax_mean::{Items, Text};
use ax_scope::{Joined, JoinedList, Source};
use std::alloc::Global;

/// `name IN name {step} | name {step} [[AS] name]`
pub(crate) fn source<'a>(alloc: Global, lexemes: Rest<'a>) -> Parsed<'a, Source>
    ensures { ReadsAs source_of result (read_source (rest_said lexemes.entry)) }
{
    let (first, rest) = name(alloc, lexemes)?;
    match behind(Mark::Keyword(Keyword::In), rest) {
        Some(rest) => elements(alloc, first, rest),
        None => whole(alloc, first, rest),
    }
}

/// What is behind `alias IN`.
fn elements<'a>(alloc: Global, alias: Text, lexemes: Rest<'a>) -> Parsed<'a, Source>
    ensures { ReadsAs source_of result (read_elements alias (rest_said lexemes.entry)) }
{
    let (container, rest) = name(alloc, lexemes)?;
    let (steps, rest) = steps(alloc, rest)?;
    let source = Source {
        container,
        each: true,
        steps,
        alias: Some(alias),
    };
    Ok((source, rest))
}

/// What is behind the container, where it is no IN.
fn whole<'a>(alloc: Global, container: Text, lexemes: Rest<'a>) -> Parsed<'a, Source>
    ensures { ReadsAs source_of result (read_whole container (rest_said lexemes.entry)) }
{
    let (steps, rest) = steps(alloc, lexemes)?;
    let (alias, rest) = naming(alloc, rest)?;
    let source = Source {
        container,
        each: false,
        steps,
        alias,
    };
    Ok((source, rest))
}

/// `{JOIN join}`
pub(crate) fn joins<'a>(alloc: Global, lexemes: Rest<'a>) -> Parsed<'a, JoinedList>
    ensures { ReadsAs (map joined_of) result (read_joins (rest_said lexemes.entry)) }
{
    let mut found = Items::new(alloc);
    let mut rest = lexemes;
    for _turn in 0..lexemes.len() {
        let Some((joined, after)) = next_join(alloc, rest)? else {
            return Ok((found, rest));
        };
        found.push(joined)?;
        rest = after;
    }
    Ok((found, rest))
}

fn next_join<'a>(alloc: Global, lexemes: Rest<'a>) -> Turned<'a, Joined>
    ensures { TurnsAs joined_of result
        (marked (the_keyword Join) read_join (rest_said lexemes.entry)) }
{
    let Some(rest) = behind(Mark::Keyword(Keyword::Join), lexemes) else {
        return Ok(None);
    };
    let (joined, rest) = join(alloc, rest)?;
    Ok(Some((joined, rest)))
}

/// `name IN name {step}`
fn join<'a>(alloc: Global, lexemes: Rest<'a>) -> Parsed<'a, Joined>
    ensures { ReadsAs joined_of result (read_join (rest_said lexemes.entry)) }
{
    let (alias, rest) = name(alloc, lexemes)?;
    let rest = expect(Mark::Keyword(Keyword::In), rest)?;
    let (base, rest) = name(alloc, rest)?;
    let (steps, rest) = steps(alloc, rest)?;
    Ok((Joined { alias, base, steps }, rest))
}
