//! The rows of one document, at their places, and the answer made of rows of several.
ghost use Rattle.std.specs.Prelude.{◌≡◌, ◌<◌};

use super::query_of;
use ax_base::Steps;
use ax_mean::{KeyedRow, Memory, Query, Tree};
use ax_rows::{envs_of, finish, rows_of};
use ax_text::read_tree;
use ax_tree::append_tree;
use std::alloc::Global;
use std::marker::Brand;
use std::sync::ledger::{Blank, Ledger};
use std::test::Fail;

/// Of each row the number of its document, its place and what it shows.
fn printed(alloc: Global, rows: &[KeyedRow]) -> Result<Vec<u8>, Memory> {
    let mut out = Vec::new(alloc);
    for row in rows {
        out.push(digit(row.number))?;
        for position in row.place.as_slice() {
            out.push(digit(*position))?;
        }
        out.push(b':')?;
        append_tree(&mut out, &row.shown)?;
        out.push(b' ')?;
    }
    Ok(out)
}

/// The last digit of a number.
fn digit(number: u32) -> u8 {
    b"0123456789"[(number % 10) as usize]
}

fn rows_in<L: Ledger>(
    alloc: Global,
    query: &Query,
    number: u32,
    document: &Tree,
    blank: Blank,
) -> Result<(Vec<KeyedRow>, usize), ax_rows::Memory>
    requires name { blank.name ≡ L.name }
    requires parts { blank.parts ≡ L.parts }
    requires some { 0 < blank.parts }
{
    let mut steps = Steps::<L>::begin(blank);
    let envs = envs_of(alloc, query, document, &mut steps)?.len();
    let rows = rows_of(alloc, query, number, document, &mut steps)?;
    Ok((rows, envs))
}

/// The rows of the document of this number and text, and how many environments it has.
fn rows_by(
    alloc: Global,
    query: &Query,
    number: u32,
    text: &str,
) -> Result<(Vec<KeyedRow>, usize), Fail> {
    let document = read_tree(alloc, text.as_bytes())?;
    Ok(rows_in::<Brand>(alloc, query, number, &document, Blank::new(1))?)
}

/// The rows of the document, printed, and how many environments it has.
fn printed_by(
    alloc: Global,
    query: &Query,
    number: u32,
    text: &str,
) -> Result<(Vec<u8>, usize), Fail> {
    let (rows, envs) = rows_by(alloc, query, number, text)?;
    Ok((printed(alloc, rows.as_slice())?, envs))
}

/// The same, of the query of a text.
fn printed_rows(
    alloc: Global,
    query: &str,
    number: u32,
    text: &str,
) -> Result<(Vec<u8>, usize), Fail> {
    let query = query_of(alloc, query)?;
    printed_by(alloc, &query, number, text)
}

// Worked out by hand: of three elements the second is no list.
#[test]
fn the_first_source_varies_slowest(rt: HostRuntime) -> Result<(), Fail> {
    let (out, envs) = printed_rows(
        rt.alloc(),
        "SELECT VALUE u FROM c JOIN t IN c.t JOIN u IN t",
        7,
        r#"{"t":[[1,2],3,[4]]}"#,
    )?;
    assert_eq!(rt; out.as_slice(), b"700:1 701:2 720:4 ".as_slice());
    assert_eq!(rt; envs, 3);
    Ok(())
}

// Worked out by hand: 5 5 2 1, of which the first 5 has the lesser number; 5 2 1; then two of these,
// from the first and from the second on.
#[test]
fn an_answer_is_sorted_told_apart_and_cut(rt: HostRuntime) -> Result<(), Fail> {
    const TABLE: [(&str, &str); 2] = [
        (
            "SELECT DISTINCT VALUE c.n FROM c ORDER BY c.n DESC OFFSET 0 LIMIT 2",
            "3:5 1:2 ",
        ),
        (
            "SELECT DISTINCT VALUE c.n FROM c ORDER BY c.n DESC OFFSET 1 LIMIT 2",
            "1:2 2:1 ",
        ),
    ];
    for (text, expected) in TABLE {
        let rows = finished_by(rt.alloc(), text)?;
        assert_eq!(rt; rows.as_slice(), expected.as_bytes(), "{text}");
    }
    Ok(())
}

/// What the query of a text answers of the rows of four documents, which come in no order.
fn finished_by(alloc: Global, text: &str) -> Result<Vec<u8>, Fail> {
    let query = query_of(alloc, text)?;
    finished_rows(alloc, &query)
}

fn finished_rows(alloc: Global, query: &Query) -> Result<Vec<u8>, Fail> {
    const DOCUMENTS: [(u32, &str); 4] = [
        (1, r#"{"n":2}"#),
        (4, r#"{"n":5}"#),
        (2, r#"{"n":1}"#),
        (3, r#"{"n":5}"#),
    ];
    let mut all = Vec::new(alloc);
    for (number, text) in DOCUMENTS {
        add_rows(alloc, query, number, text, &mut all)?;
    }
    finished(alloc, query, all)
}

/// Puts the rows of a document behind others.
fn add_rows(
    alloc: Global,
    query: &Query,
    number: u32,
    text: &str,
    all: &mut Vec<KeyedRow>,
) -> Result<(), Fail> {
    let (rows, _) = rows_by(alloc, query, number, text)?;
    for row in rows {
        all.push(row)?;
    }
    Ok(())
}

/// What is answered of rows, printed.
fn finished(alloc: Global, query: &Query, rows: Vec<KeyedRow>) -> Result<Vec<u8>, Fail> {
    let rows = finish(alloc, query, rows)?;
    Ok(printed(alloc, rows.as_slice())?)
}
