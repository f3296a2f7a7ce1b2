ghost use Rattle.std.specs.Prelude.{◌≡◌, ◌<◌};

mod grouped;
mod ordered;
mod rows;
mod sizes;
mod stopping;

use ax_answer::Answer;
use ax_base::Steps;
use ax_mean::{KeyedRow, Members, Memory, Query};
use ax_parse::parse;
use ax_text::read_tree;
use ax_tree::append_tree;
use std::alloc::Global;
use std::marker::Brand;
use std::sync::ledger::{Blank, Ledger};
use std::test::Fail;

/// A document: its number and its text.
type Document<'a> = (u32, &'a str);

/// The query of a text without parameters.
fn query_of(alloc: Global, text: &str) -> Result<Query, Fail> {
    let params = Members::new(alloc);
    Ok(parse(alloc, text.as_bytes(), &params)?)
}

fn add_text<L: Ledger>(
    alloc: Global,
    answer: &mut Answer<'_>,
    number: u32,
    text: &str,
    steps: &mut Steps<L>,
) -> Result<(), Fail> {
    let tree = read_tree(alloc, text.as_bytes())?;
    Ok(answer.add(alloc, number, &tree, steps)?)
}

/// Adds documents until the answer is done: the number of the last one that was added; 0 where none
/// was.
fn add_texts<L: Ledger>(
    alloc: Global,
    answer: &mut Answer<'_>,
    documents: &[Document<'_>],
    steps: &mut Steps<L>,
) -> Result<u32, Fail> {
    let mut last = 0;
    for (number, text) in documents {
        if answer.is_done() {
            return Ok(last);
        }
        add_text(alloc, answer, *number, text, steps)?;
        last = *number;
    }
    Ok(last)
}

/// What the rows show, one behind another, each with a blank behind it.
fn written(alloc: Global, rows: &[KeyedRow]) -> Result<Vec<u8>, Memory> {
    let mut out = Vec::new(alloc);
    for row in rows {
        append_tree(&mut out, &row.shown)?;
        out.push(b' ')?;
    }
    Ok(out)
}

fn finished(alloc: Global, answer: Answer<'_>) -> Result<Vec<u8>, Fail> {
    let rows = answer.finish(alloc)?;
    Ok(written(alloc, rows.as_slice())?)
}

fn answered_in<L: Ledger>(
    alloc: Global,
    query: &Query,
    documents: &[Document<'_>],
    blank: Blank,
) -> Result<(Vec<u8>, u32), Fail>
    requires name { blank.name ≡ L.name }
    requires parts { blank.parts ≡ L.parts }
    requires some { 0 < blank.parts }
{
    let mut steps = Steps::<L>::begin(blank);
    let mut answer = Answer::begin(alloc, query)?;
    let last = add_texts(alloc, &mut answer, documents, &mut steps)?;
    Ok((finished(alloc, answer)?, last))
}

fn answered_by(
    alloc: Global,
    query: &Query,
    documents: &[Document<'_>],
) -> Result<(Vec<u8>, u32), Fail> {
    answered_in::<Brand>(alloc, query, documents, Blank::new(1))
}

/// What the query of a text answers over the documents, and the number of the last one that was added
/// before it was done.
fn answered(alloc: Global, text: &str, documents: &[Document<'_>]) -> Result<(Vec<u8>, u32), Fail> {
    let query = query_of(alloc, text)?;
    answered_by(alloc, &query, documents)
}
