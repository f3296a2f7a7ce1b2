//! Answers with many rows, items and groups, and of long values. Every contract allows the answer that
//! memory ran out, so only a query that is answered at the size shows that it is not given. What the
//! rows show is told by how many bytes it has, worked out by hand.
use crate::tests::{Document, answered};
use std::alloc::{AllocError, Global};
use std::test::Fail;

/// How many bytes a query's rows show over these documents, with a blank behind each row.
fn shown(alloc: Global, query: &str, documents: &[Document<'_>]) -> Result<usize, Fail> {
    let (rows, _) = answered(alloc, query, documents)?;
    Ok(rows.len())
}

/// How many bytes a query's rows show over one document.
fn shown_of(alloc: Global, query: &str, document: &str) -> Result<usize, Fail> {
    shown(alloc, query, &[(1, document)])
}

/// A text, then a piece so many times, then another text.
fn built(
    alloc: Global,
    front: &str,
    piece: &str,
    count: usize,
    back: &str,
) -> Result<String, AllocError> {
    let mut text = String::from_str(alloc, front)?;
    for _ in 0..count {
        text.push_str(piece)?;
    }
    text.push_str(back)?;
    Ok(text)
}

/// `{"t":[0,1, ..]}`
fn rising(alloc: Global, count: u32) -> Result<String, Fail> {
    let mut text = String::from_str(alloc, r#"{"t":[0"#)?;
    for number in 1..count {
        let item = format!(in alloc; ",{number}")?;
        text.push_str(item.as_str())?;
    }
    text.push_str("]}")?;
    Ok(text)
}

// 0 to 699 have 2,690 bytes with a blank behind each, 0 to 599 have 2,290, and 600 to 689 have 360.
#[test]
fn rows_of_a_list_of_700_numbers(rt: HostRuntime) -> Result<(), Fail> {
    const TABLE: [(&str, usize); 11] = [
        ("SELECT VALUE t FROM t IN c.t", 2_690),
        ("SELECT TOP 600 VALUE t FROM t IN c.t", 2_290),
        ("SELECT VALUE t FROM t IN c.t OFFSET 600 LIMIT 90", 360),
        ("SELECT DISTINCT VALUE t FROM t IN c.t", 2_690),
        (
            "SELECT DISTINCT VALUE t FROM t IN c.t OFFSET 600 LIMIT 90",
            360,
        ),
        ("SELECT VALUE t FROM c JOIN t IN c.t ORDER BY c.n", 2_690),
        (
            "SELECT TOP 600 VALUE t FROM c JOIN t IN c.t ORDER BY c.n",
            2_290,
        ),
        (
            "SELECT VALUE t FROM c JOIN t IN c.t ORDER BY c.n OFFSET 600 LIMIT 90",
            360,
        ),
        (
            "SELECT DISTINCT VALUE t FROM c JOIN t IN c.t ORDER BY c.n DESC",
            2_690,
        ),
        ("SELECT VALUE t FROM t IN c.t GROUP BY t", 2_690),
        (
            "SELECT DISTINCT VALUE t FROM t IN c.t GROUP BY t OFFSET 600 LIMIT 90",
            360,
        ),
    ];
    let alloc = rt.alloc();
    let document = rising(alloc, 700)?;
    for (query, bytes) in TABLE {
        let found = shown_of(alloc, query, document.as_str())?;
        assert_eq!(rt; found, bytes, "{query}");
    }
    Ok(())
}

/// So many documents, of which the last has the greatest number that a document may have.
fn documents(alloc: Global, count: u32) -> Result<Vec<Document<'static>>, AllocError> {
    let mut documents = Vec::new(alloc);
    for number in 1..count {
        documents.push((number, r#"{"n":1}"#))?;
    }
    documents.push((u32::MAX, r#"{"n":2}"#))?;
    Ok(documents)
}

#[test]
fn rows_of_700_documents(rt: HostRuntime) -> Result<(), Fail> {
    const TABLE: [(&str, usize); 6] = [
        ("SELECT VALUE c.n FROM c", 1_400),
        ("SELECT VALUE c.n FROM c ORDER BY c.n", 1_400),
        ("SELECT TOP 699 VALUE c.n FROM c ORDER BY c.n DESC", 1_398),
        ("SELECT DISTINCT VALUE c.n FROM c", 4),
        ("SELECT VALUE COUNT(1) FROM c", 4),
        ("SELECT VALUE SUM(c.n) FROM c GROUP BY c.n", 6),
    ];
    let alloc = rt.alloc();
    let documents = documents(alloc, 700)?;
    for (query, bytes) in TABLE {
        let found = shown(alloc, query, documents.as_slice())?;
        assert_eq!(rt; found, bytes, "{query}");
    }
    Ok(())
}

fn push_item(alloc: Global, text: &mut String, value: &str, at: u32) -> Result<(), AllocError> {
    let item = format!(in alloc; ", {value} AS a{at}")?;
    text.push_str(item.as_str())
}

/// A query that picks a value as many times as may be, each by a name of its own.
fn picking(alloc: Global, value: &str, back: &str) -> Result<String, AllocError> {
    let mut text = format!(in alloc; "SELECT {value} AS a0")?;
    for at in 1..256 {
        push_item(alloc, &mut text, value, at)?;
    }
    text.push_str(back)?;
    Ok(text)
}

// The names a0 to a255 have 914 bytes; each has two quotes, a colon and a digit beside it.
#[test]
fn a_row_shows_256_items(rt: HostRuntime) -> Result<(), Fail> {
    const TABLE: [(&str, &str); 4] = [
        ("c.a", " FROM c"),
        ("c.a", " FROM c GROUP BY c.a"),
        ("COUNT(1)", " FROM c"),
        ("MAX(c.a)", " FROM c GROUP BY c.b"),
    ];
    let alloc = rt.alloc();
    for (value, back) in TABLE {
        let query = picking(alloc, value, back)?;
        let found = shown_of(alloc, query.as_str(), r#"{"a":1}"#)?;
        assert_eq!(rt; found, 2_196, "{value}{back}");
    }
    Ok(())
}

#[test]
fn a_list_of_256_values_is_written(rt: HostRuntime) -> Result<(), Fail> {
    const TABLE: [(&str, &str, &str, usize); 7] = [
        ("SELECT VALUE [c.a", ",c.a", "] FROM c", 514),
        ("SELECT VALUE [COUNT(1)", ",COUNT(1)", "] FROM c", 514),
        ("SELECT VALUE [c.a", ",c.a", "] FROM c GROUP BY c.a", 514),
        ("SELECT VALUE 1 FROM c WHERE c.a IN (2", ",1", ")", 2),
        ("SELECT VALUE COUNT(1) IN (2", ",1", ") FROM c", 5),
        ("SELECT VALUE c.a", "+1", " FROM c", 4),
        ("SELECT VALUE COUNT(1)", "*1", " FROM c", 2),
    ];
    let alloc = rt.alloc();
    for (front, piece, back, bytes) in TABLE {
        let query = built(alloc, front, piece, 255, back)?;
        let found = shown_of(alloc, query.as_str(), r#"{"a":1}"#)?;
        assert_eq!(rt; found, bytes, "{front}");
    }
    Ok(())
}

// The text has 70,002 bytes with its quotes, the list 140,001, and a blank stands behind each.
#[test]
fn long_values_are_shown_and_compared(rt: HostRuntime) -> Result<(), Fail> {
    const TABLE: [&str; 5] = [
        "SELECT VALUE c.a FROM c",
        "SELECT DISTINCT VALUE c.a FROM c",
        "SELECT VALUE c.a FROM c ORDER BY c.a",
        "SELECT TOP 1 VALUE c.a FROM c ORDER BY c.a DESC",
        "SELECT VALUE c.a FROM c GROUP BY c.a",
    ];
    let alloc = rt.alloc();
    let text = built(alloc, r#"{"a":""#, "x", 70_000, r#""}"#)?;
    let list = built(alloc, r#"{"a":[1"#, ",1", 69_999, "]}")?;
    for query in TABLE {
        let found = shown_of(alloc, query, text.as_str())?;
        assert_eq!(rt; found, 70_003, "{query}");
        let found = shown_of(alloc, query, list.as_str())?;
        assert_eq!(rt; found, 140_002, "{query}");
    }
    let found = shown_of(alloc, "SELECT VALUE MAX(c.a) FROM c", text.as_str())?;
    assert_eq!(rt; found, 70_003);
    Ok(())
}
